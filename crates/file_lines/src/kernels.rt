// The L lines of the kernels, read into level ends, a count of operations and a lent history.
ghost use Rattle.std.specs.Prelude.{◌≡◌, ◌+◌, ◌/◌, ◌≤◌, ◌^◌, ◌<◌, length};
ghost use Rattle.darts.specs.Kinds.{kind_is};
ghost use Rattle.file_lines.specs.Kernels.{noted, KernelsRead};

use crate::lines::kernel_line;
use crate::scan::Scanned;
use darts::Kind;

// What the kernel lines say: their operations in all, and the operation count after each kernel, zero past the last level.
#[derive(Clone, Copy, Debug)]
pub struct Levels {
    pub operations: usize,
    pub ends: [u32; 64],
}

// The history numbers of n operations of one kind from the place `from` on: operation t, t from 1, has p = 2t-2. Nothing is written where they would
// end past `room`.
fn lay_history(history: &mut [u32], room: usize, kind: Kind, from: usize, n: usize)
    requires { (room ≤ length history.old) × (room ≤ 32768) × (from + n < 2 ^ 32) }
    ensures { history.new ≡ noted room (kind_is kind) from n history.old }
{
    let to = from + n;
    if room < to {
        return;
    }
    for i in from..to {
        history[i] = (4 * i + kind.bit()) as u32;
    }
}

// L lines `kernel=contract N` or `kernel=remove N`. The history gets their numbers as long as they are at most D/2.
pub fn kernels(
    bytes: &[u8],
    at: usize,
    levels: usize,
    d: usize,
    history: &mut [u32],
) -> Scanned<Levels>
    requires { (levels ≤ 64) × (d ≤ 65536) × (d / 2 ≤ length history.old) }
    ensures { KernelsRead bytes.now at levels d history.old history.new result }
{
    let mut ends = [0u32; 64];
    let mut place = at;
    let mut operations = 0;
    for i in 0..levels {
        let (line, next) = kernel_line(bytes, place)?;
        lay_history(history, d / 2, line.kind, operations, line.count);
        operations += line.count;
        ends[i] = operations as u32;
        place = next;
    }
    Ok((Levels { operations, ends }, place))
}
