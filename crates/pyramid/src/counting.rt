// Counts of the present level.
ghost use Rattle.std.specs.Prelude.{◌≡◌, ◌≤◌};
ghost use Rattle.darts.specs.Counts.{counts_from};
ghost use Rattle.darts.specs.Calls.{counts as counts_of};
ghost use Rattle.pyramid.specs.Values.{state_of, tally_of, counts_left};

use crate::{Counts, Refusal, State};
use area::clear::clear;

// The counts of so many surviving darts, vertices and faces: the Euler number is vertices minus edges plus faces.
fn tallied(darts: u32, vertices: u32, faces: u32) -> Counts
    requires { (darts ≤ 65536) × (vertices ≤ 65536) × (faces ≤ 65536) }
    ensures { tally_of result ≡ counts_from darts vertices faces }
{
    let v = vertices as i32;
    let e = (darts / 2) as i32;
    let f = faces as i32;
    let euler = v - e + f;
    Counts {
        darts,
        vertices,
        faces,
        euler,
    }
}

impl State {
    // Surviving darts, vertices, faces and the Euler number of the present level, read off the state once it is judged. "Refused counts are four zeros":
    // so `tally_in` has them.
    pub fn counts(
        self,
        table: &mut [u32],
        history: &mut [u32],
        work: &mut [u32],
    ) -> Result<Counts, Refusal>
        ensures { counts_left result table.new history.new work.new
            ≡ counts_of (state_of self) table.old history.old work.old }
    {
        self.judged(None, table, history, work)?;
        let d = self.darts as usize;
        let n = self.operations as usize;
        clear(work, d);
        let darts = (d - 2 * n) as u32;
        Ok(tallied(darts, self.vertices, self.faces))
    }
}
