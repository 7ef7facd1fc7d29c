// Document 003's walk from a dart to its successor at level k.
ghost use Rattle.std.specs.Prelude.{◌≡◌, ◌*◌, ◌/◌, ◌%◌, ◌≤◌, ◌<◌, length};
ghost use Rattle.ends.specs.Ends.{gone_by, done_by};
ghost use Rattle.ends.specs.Walk.{onward as onwardOf, walk as walk_of, Walks};
ghost use Rattle.lookup.specs.Values.{found_of};

use crate::Followed;
use darts::{Kind, partner};
use slices::at;

// Whether dart y is gone by level k.
pub(crate) fn gone_by(ends: &[u32], k: usize, y: usize) -> bool
    requires { y / 2 < length ends.now }
    ensures { result ≡ gone_by k ends.now y }
{
    let level = at(ends, y / 2) / 2;
    level != 0 && level <= k
}

// Where the walk goes on from the gone dart y: to its successor if its edge was removed, to its partner's if contracted.
fn onward(table: &[u32], ends: &[u32], y: usize) -> usize
    requires { (y < length table.now) × (y / 2 < length ends.now) × (length table.now % 2 ≡ 0) × (length table.now ≤ 65536) }
    ensures { result ≡ onwardOf table.now ends.now y }
{
    match Kind::from(at(ends, y / 2)) {
        Kind::Remove => at(table, y),
        Kind::Contract => {
            let other = partner(y);
            at(table, other)
        }
    }
}

// The walk from x to its successor at level k, on d darts. Each gone dart passed is counted: at most two for each operation done by then.
pub(crate) fn walk(table: &[u32], ends: &[u32], d: usize, k: usize, x: usize) -> Followed
    requires table_len { (length table.now ≡ d) × (length ends.now ≡ d / 2) × (d % 2 ≡ 0) × (d ≤ 65536) × (x < d) }
    requires walks { Walks d k table.now ends.now x }
    ensures result_value { found_of result ≡ walk_of d k table.now ends.now x }
    ensures passed_bound { result.passed ≤ 2 * done_by k ends.now }
{
    let mut y = at(table, x);
    let mut passed = 0u32;
    while gone_by(ends, k, y) {
        passed += 1;
        y = onward(table, ends, y);
    }
    Followed {
        dart: y as u32,
        passed,
    }
}
