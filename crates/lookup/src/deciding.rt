// Do table and ends come from a pyramid? Decided in the work area, in almost linear time.
ghost use Rattle.std.specs.Prelude.{◌≡◌, length};
ghost use Rattle.area.specs.Area.{Room, table_in};
ghost use Rattle.engine.specs.Held.{Area};
ghost use Rattle.lookup.specs.Told.{Operated, Came};

use crate::levels::shape;
use crate::passes::take_kind;
use area::load::load;
use darts::Kind;

// Whether the operations that the ends tell may be done on the base in the work area: the contractions, and then the removals.
fn operate(work: &mut [u32], d: usize, ends: &[u32]) -> bool
    requires { Area d 0 work.old }
    ensures { Operated d (table_in d work.old) ends.now work.old work.new result }
{
    let Ok(n) = take_kind(work, d, 0, Kind::Contract, ends) else {
        return false;
    };
    match take_kind(work, d, n, Kind::Remove, ends) {
        Ok(_) => true,
        Err(_) => false,
    }
}

// Whether the table of d numbers and the ends come from a pyramid: the form of the levels, the base, and then the operations.
pub(crate) fn decide(work: &mut [u32], d: usize, table: &[u32], ends: &[u32]) -> bool
    requires room { Room d work.old }
    requires table_len { length table.now ≡ d }
    ensures { Came d table.now ends.now work.old work.new result }
{
    shape(ends) && load(work, d, table, ends, 0) && operate(work, d, ends)
}
