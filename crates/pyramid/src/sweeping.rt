// The sweep.
ghost use Rattle.std.specs.Prelude.{◌≡◌};
ghost use Rattle.darts.specs.Calls.{sweep_by};
ghost use Rattle.pyramid.specs.Steps.{Stood};
ghost use Rattle.pyramid.specs.Values.{state_of, left, unsettled};

use crate::{Outcome, State};
use engine::sweep::sweep;

impl State {
    // The sweep once it is judged. The work area is cleared.
    pub fn sweep_judged(self, table: &mut [u32], history: &mut [u32], work: &mut [u32]) -> Outcome
        requires { Stood (state_of self) 2 table.old history.old work.old }
        ensures { unsettled (left result table.new history.new work.new)
            ≡ unsettled (sweep_by (state_of self) table.old history.old work.old) }
    {
        if 64 <= self.levels {
            return self.full(work);
        }
        let m = sweep(work, self.darts as usize, self.operations as usize);
        self.level_cleared(Ok(m), table, history, work)
    }

    // One level more: each empty loop that is no whole piece removed, in one pass by rising edge.
    pub fn sweep(self, table: &mut [u32], history: &mut [u32], work: &mut [u32]) -> Outcome
        ensures { left result table.new history.new work.new
            ≡ sweep_by (state_of self) table.old history.old work.old }
    {
        if let Err(refusal) = self.judged(None, table, history, work) {
            return self.refused(refusal);
        }
        let o = self.sweep_judged(table, history, work);
        self.settle(o, history)
    }
}
