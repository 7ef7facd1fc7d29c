// A pass in the work area: one operation's turn, and a kernel, which takes every edge that it lists.
ghost use Rattle.darts.specs.Kernel.{run as run_of};
ghost use Rattle.darts.specs.Kinds.{kind_is, bit};
ghost use Rattle.area.specs.Area.{table_in, past_in};
ghost use Rattle.engine.specs.Held.{Ready};
ghost use Rattle.engine.specs.Runs.{Turned, Went};

use darts::{Kind, Refusal};
use operations::operate::{judge, operate};

// The turn of edge e, the one at place i, after m operations: it is judged on the map as it stands, and done where it may be. Inlined always: as a call, which
// is what LLVM makes of it by itself, the turn copies its answer at each edge, and a plan's first kernel missed its bar of speed (docs/SPEED.md).
#[inline(always)]
pub fn turn(
    work: &mut [u32],
    d: usize,
    m: usize,
    kind: Kind,
    e: usize,
    i: usize,
) -> Result<(), Refusal>
    requires { Ready d m (bit kind) work.old }
    ensures { Turned d m (bit kind) e i work.old work.new result }
{
    judge(work, d, kind, e, i)?;
    operate(work, d, m, kind, e);
    Ok(())
}

// The kernel's operations, after n others: how many there are then. In place of a `?` its return stands in words, so that an edit can change what it hands
// on and nothing else.
pub fn run(
    work: &mut [u32],
    d: usize,
    n: usize,
    kind: Kind,
    kernel: &[u32],
) -> Result<usize, Refusal>
    requires { Ready d n (bit kind) work.old }
    ensures { Went d (run_of (kind_is kind) d (table_in d work.old) (past_in d n work.old) kernel.now)
        work.old work.new result }
{
    for (i, &e) in kernel.iter().enumerate() {
        if let Err(refusal) = turn(work, d, n + i, kind, e as usize, i) {
            return Err(refusal);
        }
    }
    Ok(n + kernel.len())
}
