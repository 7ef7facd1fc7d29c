// The successor at a level, for C.
ghost use Rattle.std.specs.Prelude.{◌≡◌};
ghost use Rattle.ends.specs.Lookup.{successor_at};
ghost use Rattle.zonemap_c.specs.Numbers.{looked_in};

use crate::state::put_answer;

// The dart that follows another at a level, and how many gone darts were passed on the way to it; 0 and 0 where it is refused.
#[unsafe(no_mangle)]
pub extern "C" fn zm_successor(
    darts: u32,
    level: u32,
    dart: u32,
    table: &[u32],
    ends: &[u32],
    work: &mut [u32],
    found: &mut u32,
    passed: &mut u32,
    place: &mut usize,
    second: &mut usize,
) -> u32
    ensures { looked_in result place.new second.new found.new passed.new table.now ends.now work.new
        ≡ successor_at darts level dart table.now ends.now work.old }
{
    match lookup::successor_at(darts, level, dart, table, ends, work) {
        Ok(looked) => {
            *found = looked.dart;
            *passed = looked.passed;
            put_answer(Ok(0), place, second)
        }
        Err(refusal) => {
            *found = 0;
            *passed = 0;
            put_answer(Err(refusal), place, second)
        }
    }
}
