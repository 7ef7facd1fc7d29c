// Undo one level, and unfold to a level.
ghost use Rattle.std.specs.Prelude.{◌≡◌, ◌<◌};
ghost use Rattle.darts.specs.Calls.{undo_by, unfold_by};
ghost use Rattle.pyramid.specs.Steps.{Stood, Stacked, Lowered, Unfolded};
ghost use Rattle.pyramid.specs.Values.{state_of, left, unsettled};

use crate::{Outcome, Refusal, State};
use area::clear::clear;
use engine::store::store;
use engine::undo::take_back;

impl State {
    // The last level taken back in the work area.
    fn lower(self, work: &mut [u32]) -> State
        requires stacked { Stacked (state_of self) work.old }
        requires levels_nonzero { 0 < self.levels }
        ensures { Lowered (state_of self) (state_of result) work.old work.new }
    {
        let d = self.darts as usize;
        let n = self.operations as usize;
        let below = self.end_below() as usize;
        take_back(work, d, n, n - below);
        self.lowered()
    }

    // Level after level taken back in the work area, down to this one.
    fn unfolded(self, level: u32, work: &mut [u32]) -> State
        requires { Stacked (state_of self) work.old }
        ensures { Unfolded level (state_of self) (state_of result) work.old work.new }
    {
        let mut s = self;
        while level < s.levels {
            s = s.lower(work);
        }
        s
    }

    // Unfold once it is judged. The work area is cleared.
    pub fn unfold_judged(
        self,
        level: u32,
        table: &mut [u32],
        history: &mut [u32],
        work: &mut [u32],
    ) -> Outcome
        requires { Stood (state_of self) 2 table.old history.old work.old }
        ensures { unsettled (left result table.new history.new work.new)
            ≡ unsettled (unfold_by level (state_of self) table.old history.old work.old) }
    {
        let d = self.darts as usize;
        let top = self.levels;
        if top < level {
            clear(work, d);
            return self.refused(Refusal::NoLevel(top as usize));
        }
        let s = self.unfolded(level, work);
        store(work, d, s.operations as usize, table, history);
        clear(work, d);
        s.done()
    }

    // Back to a level: as many undos.
    pub fn unfold(
        self,
        level: u32,
        table: &mut [u32],
        history: &mut [u32],
        work: &mut [u32],
    ) -> Outcome
        ensures { left result table.new history.new work.new
            ≡ unfold_by level (state_of self) table.old history.old work.old }
    {
        if let Err(refusal) = self.judged(None, table, history, work) {
            return self.refused(refusal);
        }
        let o = self.unfold_judged(level, table, history, work);
        self.settle(o, history)
    }

    // The last level undone: the state and every entry of the table as they were before its kernel.
    pub fn undo(self, table: &mut [u32], history: &mut [u32], work: &mut [u32]) -> Outcome
        ensures { left result table.new history.new work.new
            ≡ undo_by (state_of self) table.old history.old work.old }
    {
        self.unfold(self.level_below(), table, history, work)
    }
}
