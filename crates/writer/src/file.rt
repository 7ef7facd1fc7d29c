// The file of a pyramid whose darts are numbered in the work area, line by line into a lent output.
ghost use Rattle.std.specs.Prelude.{◌≡◌, ◌+◌, ◌*◌, ◌≤◌, ◌<◌, T, length, get_or, take};
ghost use Rattle.darts.specs.Tests.{rises};
ghost use Rattle.darts.specs.Pyramid.{cut};
ghost use Rattle.darts.specs.File.{pair_lines, kernel_lines};
ghost use Rattle.area.specs.Area.{table_in, past_in};
ghost use Rattle.area.specs.Shape.{history_in};
ghost use Rattle.engine.specs.Held.{Beyond};
ghost use Rattle.pyramid.specs.Steps.{Stacked};
ghost use Rattle.pyramid.specs.Values.{state_of};
ghost use Rattle.writer.specs.Fields.{Fitted};
ghost use Rattle.writer.specs.Numbering.{Dense, renamed, entries_in};
ghost use Rattle.writer.specs.Writing.{head_lines, file_in, FileWritten};

use crate::numbering::number_darts;
use crate::print::{fit_field, put_kernel, put_pair};
use darts::{Kind, Refusal};
use pyramid::State;
use slices::at;

// The first three lines: `numbers=0`, `darts=D`, `levels=L`.
fn put_head(d: usize, levels: usize, output: &mut [u8]) -> usize
    requires { (d ≤ 65536) × (levels ≤ 64) }
    ensures { Fitted output.old output.new 0 result (head_lines d levels) }
{
    let third = fit_field(output, 0, b"numbers=0\ndarts=", d, b"\n");
    fit_field(output, third, b"levels=", levels, b"\n")
}

// A line for each kernel: its kind is its first operation's, its count the difference of two level ends.
fn put_kernels(history: &[u32], ends: &[u32], output: &mut [u8], start: usize) -> usize
    requires history_len_bound { (length history.now ≤ 99999) × (length ends.now ≤ 64) × (start ≤ 100) }
    requires t { T (rises 0 ends.now history.now) }
    ensures fitted { Fitted output.old output.new start result (kernel_lines (cut 0 ends.now history.now)) }
    ensures upper_bound { result ≤ start + 22 * 64 }
{
    let mut place = start;
    let mut from = 0;
    for end in ends {
        let to = *end as usize;
        let kind = Kind::from(at(history, from));
        place = put_kernel(output, place, kind, to - from);
        from = to;
    }
    place
}

// An entry of the table in the file's numbers: the number of the successor of the i-th listed dart.
fn entry(work: &[u32], d: usize, i: usize) -> usize
    requires dense { Dense d work.now }
    requires i_lt_d { i < d }
    ensures { (result ≡ renamed d work.now (get_or work.now (2 * d + i) 0)) × (result < d) }
{
    let x = at(work, 2 * d + i);
    let y = at(work, x);
    at(work, d + y)
}

// D/2 lines `pair=A B`: the entries 0 and 1, 2 and 3, and so on.
fn put_pairs(work: &[u32], d: usize, output: &mut [u8], start: usize) -> usize
    requires dense { Dense d work.now }
    requires start_bound { start ≤ 2000 }
    ensures { Fitted output.old output.new start result (pair_lines (entries_in d work.now)) }
{
    let mut place = start;
    for i in 0..d / 2 {
        let a = entry(work, d, 2 * i);
        let b = entry(work, d, 2 * i + 1);
        place = put_pair(output, place, a, b);
    }
    place
}

// The whole file, each line where there is room for it. The answer is the file's length in any case.
fn put_file(work: &[u32], state: State, output: &mut [u8]) -> usize
    requires dense { Dense state.darts work.now }
    requires operations_le_darts { (state.operations ≤ state.darts) × (state.levels ≤ 64) }
    requires t { T (rises 0 (take state.levels state.ends) (history_in state.darts state.operations work.now)) }
    ensures { Fitted output.old output.new 0 result (file_in (state_of state) work.now) }
{
    let d = state.darts as usize;
    let levels = state.levels as usize;
    let ends = state.ends;
    let kernels = put_head(d, levels, output);
    let a = 3 * d;
    let e = a + state.operations as usize;
    let pairs = put_kernels(&work[a..e], &ends[..levels], output, kernels);
    put_pairs(work, d, output, pairs)
}

// The file of the pyramid that the work area holds: the bytes written, or the bytes that it needs where the output is too short. A first walk, over an
// output with no room, finds out its length.
pub fn write_inside(work: &mut [u32], state: State, output: &mut [u8]) -> Result<usize, Refusal>
    requires { Stacked (state_of state) work.old }
    ensures file_written { FileWritten (state_of state) (table_in state.darts work.old) (past_in state.darts state.operations work.old)
        output.old output.new result }
    ensures beyond { Beyond state.darts work.old work.new }
{
    number_darts(work, state.darts as usize, state.operations as usize);
    let needed = put_file(work, state, &mut []);
    if output.len() < needed {
        return Err(Refusal::TooShort(needed));
    }
    Ok(put_file(work, state, output))
}
