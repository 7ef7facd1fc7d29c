// The lookups of K12: map T, and where its edges end.
ghost use Rattle.std.specs.Prelude.{◌≡◌};
ghost use Rattle.worked.specs.Lookups.{looked_up};

use crate::examples::T;
use check::expect;
use lookup::successor_at;

// Expects of the successor of a dart of map T at a level, with these ends, the answer's number and place, a dart and a count. The work area starts with
// rubbish in it.
fn lookup(ends: [u32; 4], level: u32, dart: u32, found: (u32, usize, u32, u32))
    requires { looked_up ends level dart ≡ found }
{
    let mut work = [9; 32];
    match successor_at(8, level, dart, &T, &ends, &mut work) {
        Ok(followed) => expect((0, 0, followed.dart, followed.passed) == found),
        Err(refusal) => expect((refusal.number(), refusal.place(), 0, 0) == found),
    }
}

// Darts 6 and 7 at each level, and what is refused: a dart gone by then, a dart of D, a level above the top, ends that leave a level out.
pub fn lookups() {
    let ends = [3, 3, 4, 0];
    lookup(ends, 0, 6, (0, 0, 3, 0));
    lookup(ends, 1, 6, (0, 0, 5, 2));
    lookup(ends, 2, 6, (0, 0, 6, 6));
    lookup(ends, 2, 7, (0, 0, 7, 0));
    lookup(ends, 2, 4, (8, 0, 0, 0));
    lookup(ends, 2, 8, (7, 0, 0, 0));
    lookup(ends, 3, 6, (12, 2, 0, 0));
    lookup([5, 5, 0, 0], 0, 6, (4, 0, 0, 0));
}
