// The operations that the ends tell, in the work area: those of one kind, by rising number.
ghost use Rattle.std.specs.Prelude.{◌≡◌};
ghost use Rattle.darts.specs.Kernel.{run};
ghost use Rattle.darts.specs.Kinds.{kind_is, bit};
ghost use Rattle.area.specs.Area.{table_in, past_in};
ghost use Rattle.engine.specs.Held.{Area, Ready};
ghost use Rattle.ends.specs.Ends.{ending};
ghost use Rattle.lookup.specs.Told.{tells, Passed};

use darts::{Kind, Refusal};
use engine::kernel::turn;
use operations::cycles::label;

// Whether this is the end of an edge by this kind.
fn ends_by(end: u32, kind: Kind) -> bool
    ensures { result ≡ tells (kind_is kind) end }
{
    2 <= end && Kind::from(end as usize) == kind
}

// The operations of this kind that the ends tell, after n others: how many there are then. One that is refused stops them.
fn pass(work: &mut [u32], d: usize, n: usize, kind: Kind, ends: &[u32]) -> Result<usize, Refusal>
    requires { Ready d n (bit kind) work.old }
    ensures { Passed d (run (kind_is kind) d (table_in d work.old) (past_in d n work.old) (ending (kind_is kind) ends.now))
        work.old work.new result }
{
    let mut m = n;
    for (e, end) in ends.iter().enumerate() {
        if ends_by(*end, kind) {
            turn(work, d, m, kind, e, m - n)?;
            m += 1;
        }
    }
    Ok(m)
}

// The same on a work area that holds a map: first one tree for each vertex, or for each face, by which they are judged.
pub(crate) fn take_kind(
    work: &mut [u32],
    d: usize,
    n: usize,
    kind: Kind,
    ends: &[u32],
) -> Result<usize, Refusal>
    requires { Area d n work.old }
    ensures { Passed d (run (kind_is kind) d (table_in d work.old) (past_in d n work.old) (ending (kind_is kind) ends.now))
        work.old work.new result }
{
    label(work, d, kind);
    pass(work, d, n, kind, ends)
}
