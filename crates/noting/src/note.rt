// Notes and links in the work area: from 3d + d/2 on what each operation merges; at x what came last into the record at x, at d + t what the record came
// from that operation t kept.
// 0, or d, stands there for nothing: the work area that is lent has one number for each, and the loops over the sheets read it so.
ghost use Rattle.std.specs.Prelude.{◌≡◌, ◌+◌, ◌*◌, ◌/◌, ◌<◌, set};
ghost use Rattle.area.specs.Area.{Room};
ghost use Rattle.sheets.specs.Sheets.{none, into};
ghost use Rattle.sheets.specs.Notes.{note_of};
ghost use Rattle.noting.specs.Links.{recorded, Marked};

use slices::at;

// At each place of a base's record, which is its own label, nothing came into it yet; at the others stands d.
pub(crate) fn mark(work: &mut [u32], d: usize)
    requires { Room d work.old }
    ensures { Marked d work.old work.new }
{
    for x in 0..d {
        if at(work, 2 * d + x) == x {
            work[x] = 0;
        } else {
            work[x] = d as u32;
        }
    }
}

// Operation t merges the record at `high` into the one at `low`.
pub(crate) fn note(work: &mut [u32], d: usize, t: usize, low: usize, high: usize)
    requires room { Room d work.old }
    requires t_bound { (t < d / 2) × (low < d) × (high < d) }
    ensures { work.new ≡ set work.old (3 * d + d / 2 + t) (note_of (into low high)) }
{
    work[3 * d + d / 2 + t] = (low * 65536 + high) as u32;
}

// The same, and it kept what had come into the record at `low` last; now it is the last.
pub(crate) fn merge(work: &mut [u32], d: usize, t: usize, low: usize, high: usize)
    requires room { Room d work.old }
    requires t_bound { (t < d / 2) × (low < d) × (high < d) }
    ensures { work.new ≡ recorded d t (into low high) work.old }
{
    note(work, d, t, low, high);
    work[d + t] = work[low];
    work[low] = (t + 1) as u32;
}

// Operation t merges nothing, and kept nothing.
pub(crate) fn pass(work: &mut [u32], d: usize, t: usize)
    requires room { Room d work.old }
    requires t_bound { t < d / 2 }
    ensures { work.new ≡ recorded d t none work.old }
{
    work[3 * d + d / 2 + t] = 0;
    work[d + t] = d as u32;
}
