// Reduce by a kernel.
ghost use Rattle.std.specs.Prelude.{◌≡◌, length};
ghost use Rattle.darts.specs.Answers.{too_many_levels};
ghost use Rattle.darts.specs.Calls.{reduce_by, past_of, hands_back, cleared};
ghost use Rattle.darts.specs.Kinds.{kind_is, bit};
ghost use Rattle.area.specs.Area.{Room};
ghost use Rattle.engine.specs.Runs.{ran_in};
ghost use Rattle.pyramid.specs.Steps.{Halts, Stood, climbs};
ghost use Rattle.pyramid.specs.Values.{state_of, left, unsettled, Hands};

use crate::{Kind, Outcome, Refusal, State};
use area::clear::clear;
use engine::kernel::run;
use engine::store::store;

impl State {
    // One level more by a run that has gone well, or why it was stopped; where 64 levels are in use that comes first. The work area holds the map after the
    // run.
    pub fn level(
        self,
        ran: Result<usize, Refusal>,
        table: &mut [u32],
        history: &mut [u32],
        work: &[u32],
    ) -> Outcome
        requires { Halts (state_of self) ran work.now (length table.old) (length history.old) }
        ensures { unsettled (left result table.new history.new (cleared self.darts work.now))
            ≡ unsettled (hands_back (state_of self) table.old history.old work.now
            (climbs (state_of self) (past_of (state_of self) history.old) (ran_in self.darts work.now ran))) }
    {
        if 64 <= self.levels {
            return self.refused(Refusal::TooManyLevels);
        }
        match ran {
            Err(refusal) => self.refused(refusal),
            Ok(m) => {
                let n = self.operations as usize;
                if m == n {
                    return self.refused(Refusal::EmptyKernel);
                }
                store(work, self.darts as usize, m, table, history);
                self.raised(m as u32).done()
            }
        }
    }

    // The same, and then the work area is cleared.
    pub(crate) fn level_cleared(
        self,
        ran: Result<usize, Refusal>,
        table: &mut [u32],
        history: &mut [u32],
        work: &mut [u32],
    ) -> Outcome
        requires { Halts (state_of self) ran work.old (length table.old) (length history.old) }
        ensures { unsettled (left result table.new history.new work.new)
            ≡ unsettled (hands_back (state_of self) table.old history.old work.old
            (climbs (state_of self) (past_of (state_of self) history.old) (ran_in self.darts work.old ran))) }
    {
        let o = self.level(ran, table, history, work);
        clear(work, self.darts as usize);
        o
    }

    // The refusal where 64 levels are in use: it comes before the run, so that no edge is looked at. The work area is cleared.
    pub(crate) fn full(self, work: &mut [u32]) -> Outcome
        requires { Room self.darts work.old }
        ensures hands { Hands result too_many_levels (state_of self) }
        ensures work_after { work.new ≡ cleared self.darts work.old }
    {
        clear(work, self.darts as usize);
        self.refused(Refusal::TooManyLevels)
    }

    // A kernel once the call is judged. The work area is cleared.
    pub fn reduce_judged(
        self,
        kind: Kind,
        kernel: &[u32],
        table: &mut [u32],
        history: &mut [u32],
        work: &mut [u32],
    ) -> Outcome
        requires { Stood (state_of self) (bit kind) table.old history.old work.old }
        ensures { unsettled (left result table.new history.new work.new)
            ≡ unsettled (reduce_by (kind_is kind) kernel.now (state_of self) table.old history.old work.old) }
    {
        if 64 <= self.levels {
            return self.full(work);
        }
        let ran = run(
            work,
            self.darts as usize,
            self.operations as usize,
            kind,
            kernel,
        );
        self.level_cleared(ran, table, history, work)
    }

    // One level more: the kernel's edges contracted, or removed, in the listed order.
    pub fn reduce(
        self,
        kind: Kind,
        kernel: &[u32],
        table: &mut [u32],
        history: &mut [u32],
        work: &mut [u32],
    ) -> Outcome
        ensures { left result table.new history.new work.new
            ≡ reduce_by (kind_is kind) kernel.now (state_of self) table.old history.old work.old }
    {
        if let Err(refusal) = self.judged(Some(kind), table, history, work) {
            return self.refused(refusal);
        }
        let o = self.reduce_judged(kind, kernel, table, history, work);
        self.settle(o, history)
    }
}
