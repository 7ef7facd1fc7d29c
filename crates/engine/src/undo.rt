// Operations undone in the work area.
ghost use Rattle.std.specs.Prelude.{◌≤◌, T};
ghost use Rattle.darts.specs.Tests.{backs};
ghost use Rattle.area.specs.Area.{table_in, past_in};
ghost use Rattle.engine.specs.Held.{Area};
ghost use Rattle.engine.specs.Back.{TookBack};

use operations::back::take_back_last;

// The last c of n operations are undone, the last one first. In a pyramid every operation fits, so that none stays.
pub fn take_back(work: &mut [u32], d: usize, n: usize, c: usize)
    requires area { Area d n work.old }
    requires c_le_n { c ≤ n }
    requires t { T (backs d (table_in d work.old) (past_in d n work.old)) }
    ensures { TookBack d n c work.old work.new }
{
    take_back_last(work, d, n, c);
}
