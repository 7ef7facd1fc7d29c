// One level more, one level less: the state's own numbers. Those of vertices and faces are put right once the call's work is done.
ghost use Rattle.std.specs.Prelude.{◌≡◌, ◌-◌, ◌≤◌, ◌<◌, eqb};
ghost use Rattle.permutations.specs.Choice.{pick};
ghost use Rattle.darts.specs.Answers.{done as done_of};
ghost use Rattle.darts.specs.Cases.{refusal_of};
ghost use Rattle.darts.specs.Levels.{end_below};
ghost use Rattle.pyramid.specs.Steps.{Raised, Sunk};
ghost use Rattle.pyramid.specs.Values.{state_of, Hands};

use crate::{Outcome, Refusal, State};

impl State {
    // The state that a call leaves, done.
    pub fn done(self) -> Outcome
        ensures { Hands result done_of (state_of self) }
    {
        Outcome {
            state: self,
            answer: Ok(()),
        }
    }

    // The state as it was given, and why the call is refused.
    pub fn refused(self, refusal: Refusal) -> Outcome
        ensures { Hands result (refusal_of refusal) (state_of self) }
    {
        Outcome {
            state: self,
            answer: Err(refusal),
        }
    }

    // One level more, which ends after so many operations.
    pub(crate) fn raised(self, operations: u32) -> State
        requires { self.levels < 64 }
        ensures { Raised (state_of self) operations (state_of result) }
    {
        let at = self.levels as usize;
        let mut ends = self.ends;
        ends[at] = operations;
        State {
            operations,
            levels: self.levels + 1,
            ends,
            ..self
        }
    }

    // The operation count before the last kernel.
    pub(crate) fn end_below(self) -> u32
        requires { self.levels ≤ 64 }
        ensures { result ≡ end_below (state_of self) }
    {
        let l = self.levels;
        if l <= 1 {
            return 0;
        }
        let at = (l - 2) as usize;
        self.ends[at]
    }

    // The level below; at the base, where there is none, a level above the top, which unfold refuses with the answer that undo gives there: an Option would only
    // be turned into it.
    pub(crate) fn level_below(self) -> u32
        ensures { result ≡ pick (eqb self.levels 0) 1 (self.levels - 1) }
    {
        if self.levels == 0 {
            return 1;
        }
        self.levels - 1
    }

    // One level less.
    pub(crate) fn lowered(self) -> State
        requires { (0 < self.levels) × (self.levels ≤ 64) }
        ensures { Sunk (state_of self) (state_of result) }
    {
        let below = self.end_below();
        let at = (self.levels - 1) as usize;
        let mut ends = self.ends;
        ends[at] = 0;
        State {
            operations: below,
            levels: self.levels - 1,
            ends,
            ..self
        }
    }
}
