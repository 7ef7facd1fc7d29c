// Table and history in the work area, with the dart before each survivor: tests 1 to 5 of a pyramid, and the permutation test of a base.
ghost use Rattle.std.specs.Prelude.{[], ◌≡◌, ◌≤◌, ◌<◌, length};
ghost use Rattle.area.specs.Area.{Room, tried};
ghost use Rattle.area.specs.Load.{marks, gone_in, notes, beside_in, links, given, blank, relinks, loads, loads_base};
ghost use Rattle.area.specs.Verdicts.{verdict_of, said};

use crate::Culprits;
use slices::{at, copy};

// The darts of the history's edges are marked as gone. No where a number is no dart's or an edge comes twice.
fn mark(work: &mut [u32], d: usize, n: usize) -> bool
    requires room { Room d work.old }
    requires n_le_d { n ≤ d }
    ensures { tried result work.new ≡ marks d work.old 0 n }
{
    for i in 0..n {
        let h = at(work, 3 * d + i);
        if 2 * d <= h {
            return false;
        }
        let p = 2 * (h / 4);
        if at(work, d + p) != d + 1 {
            return false;
        }
        let q = darts::partner(p);
        work[d + p] = d as u32;
        work[d + q] = d as u32;
    }
    true
}

// Whether dart x is marked as gone, by one of n operations. After none, as in a base, there is nothing to look at.
#[tactic(auto, unfolding(crate::specs::Load::gone_in, crate::specs::Area::prev))]
fn gone(work: &[u32], d: usize, n: usize, x: usize) -> bool
    requires room { Room d work.now }
    requires x_lt_d { x < d }
    ensures { result ≡ gone_in d n work.now x }
{
    n != 0 && at(work, d + x) == d
}

// Dart x is noted before its successor, if it survives. No where its entry is no dart, or it survives and leads to a gone dart or to one where a
// lower survivor is noted.
#[tactic(auto, unfolding(crate::specs::Load::notes, crate::specs::Area::prev, darts::specs::Map::successor))]
fn note(work: &mut [u32], d: usize, n: usize, x: usize) -> bool
    requires room { Room d work.old }
    requires x_lt_d { x < d }
    ensures { tried result work.new ≡ notes d n work.old x }
{
    let y = at(work, x);
    if d <= y {
        return false;
    }
    if gone(work, d, n, x) {
        return true;
    }
    if at(work, d + y) != d + 1 {
        return false;
    }
    work[d + y] = x as u32;
    true
}

// The second culprit beside x: what is noted at its successor, which is d for a gone dart, or "D where the value was out of range". A number, as the rule
// names it.
#[tactic(auto, unfolding(crate::specs::Load::beside_in, crate::specs::Area::prev, darts::specs::Map::successor))]
fn beside(work: &[u32], d: usize, x: usize) -> usize
    requires room { Room d work.now }
    requires x_lt_d { x < d }
    ensures { result ≡ beside_in d work.now x }
{
    let y = at(work, x);
    if d <= y {
        return d;
    }
    at(work, d + y)
}

// The permutation test of the survivors of n operations: each dart is noted, up to the lowest where that cannot be.
fn test(work: &mut [u32], d: usize, n: usize) -> Result<(), Culprits>
    requires { Room d work.old }
    ensures { said (verdict_of result) work.new ≡ links d n work.old 0 d }
{
    for dart in 0..d {
        if !note(work, d, n, dart) {
            let beside = beside(work, d, dart);
            return Err(Culprits { dart, beside });
        }
    }
    Ok(())
}

// Nothing is known of the dart before each dart.
#[tactic(auto, unfolding(crate::specs::Load::blank, slices::specs::Laid::laid))]
fn forget(work: &mut [u32], d: usize)
    requires { Room d work.old }
    ensures { work.new ≡ blank d work.old }
{
    work[d..2 * d].fill((d + 1) as u32);
}

// Table and history are copied into their parts.
fn lay(work: &mut [u32], d: usize, table: &[u32], history: &[u32], n: usize)
    requires room { Room d work.old }
    requires d_in_bounds { (d ≤ length table.now) × (n ≤ length history.now) × (n ≤ d) }
    ensures { work.new ≡ given d n table.now history.now work.old }
{
    copy(work, table, d);
    copy(&mut work[3 * d..4 * d], history, n);
}

// Of a table and a history that stand in their parts, the dart before each survivor is found anew. No where they break one of tests 1 to 5.
#[tactic(auto, unfolding(crate::specs::Load::relinks, crate::specs::Load::links_after))]
pub fn relink(work: &mut [u32], d: usize, n: usize) -> bool
    requires room { Room d work.old }
    requires n_le_d { n ≤ d }
    ensures { tried result work.new ≡ relinks d n work.old }
{
    forget(work, d);
    mark(work, d, n) && test(work, d, n).is_ok()
}

// Table and history in the work area, with the dart before each survivor. No where they break one of tests 1 to 5.
#[tactic(auto, unfolding(crate::specs::Load::loads))]
pub fn load(work: &mut [u32], d: usize, table: &[u32], history: &[u32], n: usize) -> bool
    requires room { Room d work.old }
    requires d_in_bounds { (d ≤ length table.now) × (n ≤ length history.now) × (n ≤ d) }
    ensures { tried result work.new ≡ loads d n table.now history.now work.old }
{
    lay(work, d, table, history, n);
    relink(work, d, n)
}

// A table in the work area, no dart of which is gone, with the dart before each: the permutation test.
pub fn load_base(work: &mut [u32], d: usize, table: &[u32]) -> Result<(), Culprits>
    requires room { Room d work.old }
    requires d_in_bounds { d ≤ length table.now }
    ensures { said (verdict_of result) work.new ≡ loads_base d table.now work.old }
{
    copy(work, table, d);
    forget(work, d);
    test(work, d, 0)
}
