// The history replayed on the vertices of the base, first operation first, with notes and links.
ghost use Rattle.std.specs.Prelude.{◌+◌, ◌*◌, ◌/◌, ◌≤◌, ◌<◌};
ghost use Rattle.forest.specs.Forest.{Falls};
ghost use Rattle.area.specs.Area.{Room, forest_in};
ghost use Rattle.operations.specs.Replay.{Numbered};
ghost use Rattle.noting.specs.Links.{Contracted, Stepped, Starts, Replayed};

use crate::note::{merge, pass};
use darts::Kind;
use operations::trees::{find, link};
use slices::at;

// The contraction of edge e, operation t: its two vertices are joined, and it is noted. No where they are one already.
fn contract(work: &mut [u32], d: usize, t: usize, e: usize) -> bool
    requires room { Room d work.old }
    requires falls { Falls (forest_in d work.old) }
    requires t_bound { (t < d / 2) × (2 * e + 1 < d) }
    ensures { Contracted d t e work.old work.new result }
{
    let a = find(work, d, 2 * e);
    let b = find(work, d, 2 * e + 1);
    if !link(work, d, a, b) {
        return false;
    }
    merge(work, d, t, a.min(b), a.max(b));
    true
}

// Operation t, which has the history number h.
fn step(work: &mut [u32], d: usize, t: usize, h: usize) -> bool
    requires room { Room d work.old }
    requires falls { Falls (forest_in d work.old) }
    requires t_bound { (t < d / 2) × (h < 2 * d) }
    ensures { Stepped d t h work.old work.new result }
{
    match Kind::from(h) {
        Kind::Contract => contract(work, d, t, h / 4),
        Kind::Remove => {
            pass(work, d, t);
            true
        }
    }
}

// All n operations. No as soon as a contraction has one vertex at both ends.
pub(crate) fn replay(work: &mut [u32], d: usize, n: usize) -> bool
    requires room { Room d work.old }
    requires falls { Falls (forest_in d work.old) }
    requires numbered { Numbered d n work.old }
    requires n_bound { n ≤ d / 2 }
    requires starts { Starts d work.old }
    ensures { Replayed d n work.old work.new result }
{
    for t in 0..n {
        let h = at(work, 3 * d + t);
        if !step(work, d, t, h) {
            return false;
        }
    }
    true
}
