// The shape of a state: its levels, their ends, and one kind of operation inside each level.
ghost use Rattle.std.specs.Prelude.{◌≡◌, ◌≤◌, ◌<◌, length, take, drop};
ghost use Rattle.darts.specs.Moves.{contractions_in};
ghost use Rattle.darts.specs.Tests.{one_kind, rises, zeros, shaped};
ghost use Rattle.slices.specs.Part.{part};
ghost use Rattle.area.specs.Area.{Room};
ghost use Rattle.area.specs.Shape.{state_with, history_in};

use crate::Figures;
use slices::at;

// How many of the history numbers at the places from `from` to `to` are contractions'.
pub fn contractions(numbers: &[u32], from: usize, to: usize) -> usize
    requires { (from ≤ to) × (to ≤ length numbers.now) }
    ensures { result ≡ contractions_in (part from to numbers.now) }
{
    numbers[from..to].iter().map(|h| (*h % 2) as usize).sum()
}

// Whether they are of one kind, the first one's: none is of the other.
fn one_kind(work: &[u32], from: usize, to: usize) -> bool
    requires { (from < to) × (to ≤ length work.now) }
    ensures { result ≡ one_kind (part from to work.now) }
{
    let k = work[from] % 2;
    work[from + 1..to].iter().all(|h| *h % 2 == k)
}

// Whether the ends past the levels are 0.
fn unused(state: Figures) -> bool
    requires { state.levels ≤ 64 }
    ensures { result ≡ zeros (drop state.levels state.ends) }
{
    state.ends[state.levels..].iter().all(|end| *end == 0)
}

// Whether the ends of the levels rise to the number of operations, with one kind inside each level.
fn rise(work: &[u32], state: Figures) -> bool
    requires room { Room state.darts work.now }
    requires operations_le_darts { (state.operations ≤ state.darts) × (state.levels ≤ 64) }
    ensures { result ≡ rises 0 (take state.levels state.ends) (history_in state.darts state.operations work.now) }
{
    let past = 3 * state.darts;
    let mut from = 0;
    for end in &state.ends[..state.levels] {
        let end = *end as usize;
        if end <= from {
            return false;
        }
        if state.operations < end {
            return false;
        }
        if !one_kind(work, past + from, past + end) {
            return false;
        }
        from = end;
    }
    from == state.operations
}

// Whether the state fits the history in the work area.
#[tactic(auto, unfolding(darts::specs::Tests::shaped))]
pub fn shape(work: &[u32], state: Figures) -> bool
    requires room { Room state.darts work.now }
    requires operations_le_darts { state.operations ≤ state.darts }
    ensures { result ≡ shaped (state_with state) (history_in state.darts state.operations work.now) }
{
    if 64 < state.levels {
        return false;
    }
    unused(state) && rise(work, state)
}
