// The call that starts from a table.
ghost use Rattle.std.specs.Prelude.{◌≡◌};
ghost use Rattle.darts.specs.Calls.{start as start_of};
ghost use Rattle.darts.specs.Cases.{answer_of};
ghost use Rattle.darts.specs.State.{zeros};
ghost use Rattle.pyramid.specs.Values.{base_with, left, state_of, Hands};

use crate::{Outcome, Refusal, State};
use darts::answers::fit;
use engine::base::test_base;

impl State {
    // A base of so many darts, with so many vertices and faces.
    pub fn base(darts: u32, vertices: u32, faces: u32) -> State
        ensures { state_of result ≡ base_with darts vertices faces }
    {
        State {
            darts,
            operations: 0,
            levels: 0,
            vertices,
            faces,
            ends: [0; 64],
        }
    }
}

// A base of so many darts, with so many vertices and faces, and an answer.
pub fn based(darts: u32, vertices: u32, faces: u32, answer: Result<(), Refusal>) -> Outcome
    ensures { Hands result (answer_of answer) (base_with darts vertices faces) }
{
    Outcome {
        state: State::base(darts, vertices, faces),
        answer,
    }
}

// A refused start: a state of zeros.
pub fn unbased(answer: Result<(), Refusal>) -> Outcome
    ensures { Hands result (answer_of answer) zeros }
{
    based(0, 0, 0, answer)
}

// Starts from the table's first D numbers: a base, where they are a permutation of all darts; else both culprits.
pub fn start(darts: u32, table: &mut [u32], history: &mut [u32], work: &mut [u32]) -> Outcome
    ensures { left result table.new history.new work.new
        ≡ start_of darts table.old history.old work.old }
{
    if let Err(refusal) = fit(darts, table.len(), history.len(), work.len()) {
        return unbased(Err(refusal));
    }
    match test_base(work, darts as usize, table) {
        Ok(base) => based(darts, base.vertices as u32, base.faces as u32, Ok(())),
        Err(culprits) => unbased(Err(Refusal::NoPermutation(culprits.dart, culprits.beside))),
    }
}
