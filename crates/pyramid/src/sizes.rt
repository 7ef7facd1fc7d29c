// What a call with sheets is judged first, and how far it goes: numbers alone.
ghost use Rattle.std.specs.Prelude.{◌≡◌, ◌≤◌};
ghost use Rattle.darts.specs.Cases.{answer_of};
ghost use Rattle.area.specs.Shape.{state_with};
ghost use Rattle.yarn.specs.Calls.{fitting};
ghost use Rattle.pyramid.specs.Values.{state_of, figures_of};
ghost use Rattle.pyramid.specs.Costs.{operations_at};

use crate::{Refusal, State};
use area::Figures;
use darts::answers::fit;

// Answers 1 and 2: the number of darts, then the lengths of the slices and of the sheets.
pub(crate) fn fit_with(
    darts: u32,
    table: usize,
    history: usize,
    work: usize,
    sheet: usize,
    kept: usize,
) -> Result<(), Refusal>
    ensures { answer_of result ≡ fitting darts table history work sheet kept }
{
    fit(darts, table, history, work)?;
    let d = darts as usize;
    if sheet < d || kept < d / 2 {
        return Err(Refusal::TooShort(0));
    }
    Ok(())
}

// The state's numbers, as the check takes them.
impl From<State> for Figures {
    ghost from_gives = { λ s f. state_with f ≡ figures_of (state_of s) };

    fn from(state: State) -> Figures {
        let ends = state.ends;
        Figures {
            darts: state.darts as usize,
            operations: state.operations as usize,
            levels: state.levels as usize,
            ends,
        }
    }
}

impl State {
    // How many operations there are at a level; as many as now where it is not below the top.
    pub(crate) fn operations_at(self, level: u32) -> u32
        requires { self.levels ≤ 64 }
        ensures { result ≡ operations_at level (state_of self) }
    {
        if self.levels <= level {
            return self.operations;
        }
        if level == 0 {
            return 0;
        }
        let at = (level - 1) as usize;
        self.ends[at]
    }
}
