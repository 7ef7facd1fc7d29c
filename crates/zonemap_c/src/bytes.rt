// The calls on bytes, for C.
ghost use Rattle.std.specs.Prelude.{◌≡◌};
ghost use Rattle.darts.specs.Calls.{read, write};
ghost use Rattle.zonemap_c.specs.Numbers.{state_in, left_in, filed_in};

use crate::state::{hand_back, put_answer, state_of};

// Reads a file.
#[unsafe(no_mangle)]
pub extern "C" fn zm_read(
    bytes: &[u8],
    state: &mut [u32; 69],
    table: &mut [u32],
    history: &mut [u32],
    work: &mut [u32],
    place: &mut usize,
    second: &mut usize,
) -> u32
    ensures { left_in result place.new second.new state.new table.new history.new work.new
        ≡ read bytes.now table.old history.old work.old }
{
    let outcome = reader::read(bytes, table, history, work);
    hand_back(outcome, state, place, second)
}

// Writes the file of a pyramid over the first bytes of the output.
#[unsafe(no_mangle)]
pub extern "C" fn zm_write(
    state: &[u32; 69],
    table: &mut [u32],
    history: &mut [u32],
    work: &mut [u32],
    output: &mut [u8],
    place: &mut usize,
    second: &mut usize,
) -> u32
    ensures { filed_in result place.new second.new table.new history.new work.new output.new
        ≡ write (state_in state.now) table.old history.old work.old output.old }
{
    let given = state_of(state);
    let answer = writer::write(given, table, history, work, output);
    put_answer(answer, place, second)
}
