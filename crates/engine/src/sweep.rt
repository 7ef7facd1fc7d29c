// The sweep: a removal kernel that chooses its own edges. None of them is judged: each may be removed.
ghost use Rattle.std.specs.Prelude.{Ok};
ghost use Rattle.darts.specs.Levels.{swept};
ghost use Rattle.area.specs.Area.{table_in, past_in};
ghost use Rattle.engine.specs.Held.{Area};
ghost use Rattle.engine.specs.Runs.{Went};

use darts::Kind;
use operations::operate::{operate, takes};

// The sweep's removals, after n operations: one pass over the edges by rising number. No forest is asked. How many operations there are then.
pub fn sweep(work: &mut [u32], d: usize, n: usize) -> usize
    requires { Area d n work.old }
    ensures { Went d (swept d (table_in d work.old) (past_in d n work.old))
        work.old work.new (Ok result) }
{
    let mut m = n;
    for e in 0..d / 2 {
        if takes(work, d, e) {
            operate(work, d, m, Kind::Remove, e);
            m += 1;
        }
    }
    m
}
