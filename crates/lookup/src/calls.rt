// The call: the successor of a dart at a level. d, level and dart go one by one: a struct of them would be built once and taken apart at once. d stands beside
// slices that are as long, since the definitions take it.
ghost use Rattle.std.specs.Prelude.{◌≡◌, ◌*◌, ◌/◌, ◌%◌, ◌≤◌, T, IfOk, length};
ghost use Rattle.darts.specs.Calls.{cleared};
ghost use Rattle.darts.specs.Cases.{answer_of};
ghost use Rattle.darts.specs.Pyramid.{dart_count};
ghost use Rattle.area.specs.Area.{Room};
ghost use Rattle.ends.specs.Comes.{comes};
ghost use Rattle.ends.specs.Ends.{done_by};
ghost use Rattle.ends.specs.Lookup.{ends_of, successor_at};
ghost use Rattle.lookup.specs.Values.{looked, inside, answer_for, LooksUp};

use crate::deciding::decide;
use crate::levels::top;
use crate::walking::{gone_by, walk};
use crate::{Followed, Refusal};
use area::clear::clear;
use darts::answers::fit;

// Answers 12, 7 and 8 on d darts and ends that come from a pyramid: the level, the dart, and whether it is gone by then.
fn judge(ends: &[u32], d: usize, k: usize, x: usize) -> Result<(), Refusal>
    requires { (length ends.now ≡ d / 2) × (d % 2 ≡ 0) }
    ensures { answer_of result ≡ inside d k x ends.now }
{
    let high = top(ends);
    if high < k {
        return Err(Refusal::NoLevel(high));
    }
    if d <= x {
        return Err(Refusal::NoEdge(0));
    }
    if gone_by(ends, k, x) {
        return Err(Refusal::GoneAlready(0));
    }
    Ok(())
}

// The successor of dart x at level k, where the table of d numbers and the ends come from a pyramid.
fn look(table: &[u32], ends: &[u32], d: usize, k: usize, x: usize) -> Result<Followed, Refusal>
    requires { T (dart_count d) × (length table.now ≡ d) × (length ends.now ≡ d / 2) × T (comes d table.now ends.now) }
    ensures { LooksUp (inside d k x ends.now) d k x table.now ends.now result }
{
    judge(ends, d, k, x)?;
    Ok(walk(table, ends, d, k, x))
}

// The same, where it is not known whether they do: else it is answer 4. The work area is cleared.
fn look_up(
    work: &mut [u32],
    table: &[u32],
    ends: &[u32],
    d: usize,
    k: usize,
    x: usize,
) -> Result<Followed, Refusal>
    requires room { Room d work.old }
    requires table_len { (length table.now ≡ d) × (length ends.now ≡ d / 2) }
    ensures looks_up { LooksUp (answer_for d k x table.now ends.now) d k x table.now ends.now result }
    ensures work_after { work.new ≡ cleared d work.old }
{
    let comes = decide(work, d, table, ends);
    clear(work, d);
    if comes {
        return look(table, ends, d, k, x);
    }
    Err(Refusal::NoPyramid)
}

// The dart that follows a dart at a level of the pyramid that the table's first D numbers and the first D/2 ends come from, and how many gone darts
// were passed on the way to it: at most two for each operation done by then.
pub fn successor_at(
    darts: u32,
    level: u32,
    dart: u32,
    table: &[u32],
    ends: &[u32],
    work: &mut [u32],
) -> Result<Followed, Refusal>
    ensures work_after { looked result table.now ends.now work.new
        ≡ successor_at darts level dart table.now ends.now work.old }
    ensures passed_bound { IfOk result (λ f. f.passed ≤ 2 * done_by level (ends_of darts ends.now)) }
{
    fit(darts, table.len(), ends.len(), work.len())?;
    let d = darts as usize;
    look_up(
        work,
        &table[..d],
        &ends[..d / 2],
        d,
        level as usize,
        dart as usize,
    )
}
