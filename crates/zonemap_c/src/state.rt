// The state as 69 numbers (darts, operations, levels, vertices, faces, the 64 level ends), and what a call hands back.
ghost use Rattle.std.specs.Prelude.{◌≡◌};
ghost use Rattle.darts.specs.Cases.{bytes_of};
ghost use Rattle.pyramid.specs.Values.{state_of, tally_in as tallyOf};
ghost use Rattle.zonemap_c.specs.Numbers.{state_in, tally_in, answer_in, Handed};

use pyramid::{Counts, Outcome, Refusal, State};

// The state that the numbers are. Both types are other crates', so that no From can stand here.
pub(crate) fn state_of(numbers: &[u32; 69]) -> State
    ensures { state_of result ≡ state_in numbers.now }
{
    let mut ends = [0; 64];
    ends.copy_from_slice(&numbers[5..]);
    State {
        darts: numbers[0],
        operations: numbers[1],
        levels: numbers[2],
        vertices: numbers[3],
        faces: numbers[4],
        ends,
    }
}

// The numbers that the state is, all 69.
fn numbers_of(state: State) -> [u32; 69]
    ensures { state_in result ≡ state_of state }
{
    let ends = state.ends;
    let mut numbers = [0; 69];
    numbers[5..].copy_from_slice(&ends);
    numbers[0] = state.darts;
    numbers[1] = state.operations;
    numbers[2] = state.levels;
    numbers[3] = state.vertices;
    numbers[4] = state.faces;
    numbers
}

// An answer, put where C finds it: its two places are written, its number returned. Done has the number 0, the place that is handed and the second place 0.
pub(crate) fn put_answer(
    answer: Result<usize, Refusal>,
    place: &mut usize,
    second: &mut usize,
) -> u32
    ensures { answer_in result place.new second.new ≡ bytes_of answer }
{
    match answer {
        Ok(at) => {
            *place = at;
            *second = 0;
            0
        }
        Err(refusal) => {
            *place = refusal.place();
            *second = refusal.second();
            refusal.number()
        }
    }
}

// What a call hands back, put where C finds it: the state's numbers and the answer.
pub(crate) fn hand_back(
    outcome: Outcome,
    state: &mut [u32; 69],
    place: &mut usize,
    second: &mut usize,
) -> u32
    ensures { Handed outcome result place.new second.new state.new }
{
    *state = numbers_of(outcome.state);
    put_answer(outcome.answer.map(|()| 0), place, second)
}

// The counts, put where C finds them: three numbers, and the Euler number, which has a sign. "Refused counts are four zeros."
pub(crate) fn put_counts(counted: Result<Counts, Refusal>, counts: &mut [u32; 3], euler: &mut i32)
    ensures { tally_in counts.new euler.new ≡ tallyOf counted }
{
    match counted {
        Ok(found) => {
            *counts = [found.darts, found.vertices, found.faces];
            *euler = found.euler;
        }
        Err(_) => {
            *counts = [0; 3];
            *euler = 0;
        }
    }
}
