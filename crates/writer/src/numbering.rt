// Each dart's number in the file: the forest's part becomes the list of the darts in the file's order, and the part of the dart before each dart gives
// way to the dart's place in that list.
ghost use Rattle.std.specs.Prelude.{◌≡◌, ℕ, ◌+◌, ◌*◌, ◌<◌, get_or};
ghost use Rattle.darts.specs.File.{taken, survivors};
ghost use Rattle.area.specs.Area.{Room, past_in};
ghost use Rattle.area.specs.Shape.{history_in};
ghost use Rattle.engine.specs.Held.{Area};
ghost use Rattle.slices.specs.Laid.{laid};
ghost use Rattle.writer.specs.Numbering.{Placed, Numbered};

use darts::partner;
use slices::at;

// The p and q of each operation, first to last, are the head of the list.
fn list_taken(work: &mut [u32], d: usize, n: usize)
    requires { Area d n work.old }
    ensures { work.new ≡ laid work.old (2 * d) (taken (history_in d n work.old)) }
{
    for i in 0..n {
        let p = at(work, 3 * d + i) / 2;
        let q = partner(p);
        work[2 * d + 2 * i] = p as u32;
        work[2 * d + 2 * i + 1] = q as u32;
    }
}

// The survivors by rising number are the rest of the list, which stands in the slice that says who survives: so no iterator goes over it.
fn list_survivors(work: &mut [u32], d: usize, n: usize)
    requires { Area d n work.old }
    ensures { work.new ≡ laid work.old (2 * d + 2 * n) (survivors (past_in d n work.old) d) }
{
    let mut place = 2 * d + 2 * n;
    for x in 0..d {
        if at(work, d + x) < d {
            work[place] = x as u32;
            place += 1;
        }
    }
}

// The place of each listed dart becomes its number, from the last place to the first, so that of all places of a dart the first one stays.
fn number_listed(work: &mut [u32], d: usize)
    requires room { Room d work.old }
    requires by_index { (i : ℕ) → i < d → get_or work.old (2 * d + i) 0 < d }
    ensures { Placed d work.old work.new }
{
    for i in (0..d).rev() {
        let x = at(work, 2 * d + i);
        work[d + x] = i as u32;
    }
}

// The p and q of operation t, t from 1, become 2t-2 and 2t-1; surviving edges follow by rising number.
pub fn number_darts(work: &mut [u32], d: usize, n: usize)
    requires { Area d n work.old }
    ensures { Numbered d n work.old work.new }
{
    list_taken(work, d, n);
    list_survivors(work, d, n);
    number_listed(work, d);
}
