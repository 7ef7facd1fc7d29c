// Vertices and faces: the cycles of the work area's survivors, told apart by the forest's part.
ghost use Rattle.std.specs.Prelude.{◌≡◌, ◌+◌, ◌*◌, ◌<◌, get_or};
ghost use Rattle.permutations.specs.Perm.{Perm};
ghost use Rattle.darts.specs.Kinds.{bit};
ghost use Rattle.forest.specs.Forest.{Falls, Fresh};
ghost use Rattle.area.specs.Area.{Room, forest_in};
ghost use Rattle.operations.specs.Replay.{Numbered, Replayed};
ghost use Rattle.operations.specs.Cycles.{step_in, MarkedIn, Labelled};
ghost use Rattle.operations.specs.Count.{roots_in};

use crate::step::around;
use crate::trees::join;
use darts::Kind;
use slices::at;

// Joins the two darts of each operation of this kind, first to last. Answers no as soon as two of them have one root already.
pub fn replay(work: &mut [u32], d: usize, n: usize, kind: Kind) -> bool
    requires room { Room d work.old }
    requires falls { Falls (forest_in d work.old) }
    requires numbered { Numbered d n work.old }
    ensures { Replayed d n (bit kind) work.old work.new result }
{
    let k = kind.bit();
    for i in 0..n {
        let h = at(work, 3 * d + i);
        if h % 2 == k {
            let p = h / 2;
            let q = darts::partner(p);
            if !join(work, d, p, q) {
                return false;
            }
        }
    }
    true
}

// Writes i at each dart of its cycle: round its face for removals, round its vertex for contractions. At i itself it stands already.
fn label_cycle(work: &mut [u32], d: usize, kind: Kind, i: usize)
    requires room { Room d work.old }
    requires perm { Perm d (step_in d (bit kind) work.old) }
    requires i_lt_d { (i < d) × (get_or work.old (d + i) 0 < d) × (get_or work.old (2 * d + i) 0 ≡ i) }
    ensures { MarkedIn d (bit kind) i work.old work.new }
{
    let mut x = around(work, d, kind, i);
    while x != i {
        work[2 * d + x] = i as u32;
        x = around(work, d, kind, x);
    }
}

// From a fresh forest: each survivor that no lower dart has reached writes itself at its whole cycle, and is counted.
fn label_cycles(work: &mut [u32], d: usize, kind: Kind) -> usize
    requires room { Room d work.old }
    requires perm { Perm d (step_in d (bit kind) work.old) }
    requires fresh { Fresh d (forest_in d work.old) }
    ensures labelled { Labelled d (bit kind) work.old work.new }
    ensures value { result ≡ roots_in d work.new d }
{
    let mut n = 0;
    for i in 0..d {
        if at(work, 2 * d + i) == i && at(work, d + i) < d {
            label_cycle(work, d, kind, i);
            n += 1;
        }
    }
    n
}

// The forest becomes one tree for each cycle, with the lowest dart as root: faces for removals, vertices for contractions. How many there are.
pub fn label(work: &mut [u32], d: usize, kind: Kind) -> usize
    requires room { Room d work.old }
    requires perm { Perm d (step_in d (bit kind) work.old) }
    ensures labelled { Labelled d (bit kind) work.old work.new }
    ensures value { result ≡ roots_in d work.new d }
{
    forest::fresh(&mut work[2 * d..3 * d]);
    label_cycles(work, d, kind)
}
