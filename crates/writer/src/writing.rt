// The call that writes a file.
ghost use Rattle.std.specs.Prelude.{◌≡◌};
ghost use Rattle.darts.specs.Calls.{write as writeOf};
ghost use Rattle.pyramid.specs.Values.{state_of};
ghost use Rattle.writer.specs.Filed.{filed};

use crate::file::write_inside;
use area::clear::clear;
use pyramid::{Refusal, State};

// Writes the file of a pyramid, with darts from zero, over the first bytes of the output: how many they are.
pub fn write(
    state: State,
    table: &mut [u32],
    history: &mut [u32],
    work: &mut [u32],
    output: &mut [u8],
) -> Result<usize, Refusal>
    ensures { filed result table.new history.new work.new output.new
        ≡ writeOf (state_of state) table.old history.old work.old output.old }
{
    state.judged(None, table, history, work)?;
    let written = write_inside(work, state, output);
    clear(work, state.darts as usize);
    written
}
