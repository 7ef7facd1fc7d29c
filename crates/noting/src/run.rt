// A kernel of contractions, as `engine::kernel` has it, with the note of what each merges.
ghost use Rattle.std.specs.Prelude.{◌≡◌, ◌+◌, ◌*◌, ◌/◌, ◌<◌, set};
ghost use Rattle.area.specs.Area.{Room};
ghost use Rattle.operations.specs.Edge.{Bounds};
ghost use Rattle.operations.specs.Operate.{operated};
ghost use Rattle.operations.specs.Trees.{rooted};
ghost use Rattle.engine.specs.Held.{Ready};
ghost use Rattle.sheets.specs.Sheets.{into};
ghost use Rattle.sheets.specs.Notes.{note_of};
ghost use Rattle.noting.specs.Running.{TurnedNoted, RanNoted};

use crate::note::note;
use darts::{Kind, Refusal};
use operations::operate::{judge_found, operate};
use operations::trees::find;

// The contraction of edge e, the one of count m, which merges the record at `high` into the one at `low`.
fn contract(work: &mut [u32], d: usize, m: usize, e: usize, low: usize, high: usize)
    requires room { Room d work.old }
    requires bounds { Bounds d work.old (2 * e) (2 * e + 1) }
    requires m_bound { (m < d / 2) × (low < d) × (high < d) }
    ensures { work.new ≡ set (operated d m work.old 1 e) (3 * d + d / 2 + m) (note_of (into low high)) }
{
    operate(work, d, m, Kind::Contract, e);
    note(work, d, m, low, high);
}

// The same where it may be done: the edge at place i, whose darts have the roots a and b, is judged on the map as it stands.
fn take(
    work: &mut [u32],
    d: usize,
    m: usize,
    e: usize,
    i: usize,
    a: usize,
    b: usize,
) -> Result<(), Refusal>
    requires ready { Ready d m 1 work.old }
    requires e_bound { e < d / 2 }
    requires a_value { (a ≡ rooted d work.old (2 * e)) × (b ≡ rooted d work.old (2 * e + 1)) }
    ensures { TurnedNoted d m e i work.old work.new result }
{
    judge_found(work, d, Kind::Contract, e, i, a, b)?;
    contract(work, d, m, e, a.min(b), a.max(b));
    Ok(())
}

// The turn of edge e, the one at place i, after m operations.
fn turn(work: &mut [u32], d: usize, m: usize, e: usize, i: usize) -> Result<(), Refusal>
    requires { Ready d m 1 work.old }
    ensures { TurnedNoted d m e i work.old work.new result }
{
    if d / 2 <= e {
        return Err(Refusal::NoEdge(i));
    }
    let a = find(work, d, 2 * e);
    let b = find(work, d, 2 * e + 1);
    take(work, d, m, e, i, a, b)
}

// The kernel's contractions, after n other operations: how many there are then.
// Not one function with engine's `run`, over the turn: it would be longer than the two loops.
pub fn run_noted(work: &mut [u32], d: usize, n: usize, kernel: &[u32]) -> Result<usize, Refusal>
    requires { Ready d n 1 work.old }
    ensures { RanNoted d n kernel.now work.old work.new result }
{
    for (i, &e) in kernel.iter().enumerate() {
        turn(work, d, n + i, e as usize, i)?;
    }
    Ok(n + kernel.len())
}
