// The calls on a state, for C.
ghost use Rattle.std.specs.Prelude.{◌≡◌};
ghost use Rattle.darts.specs.Operation.{contraction, removal};
ghost use Rattle.darts.specs.Calls.{start, reduce_by, sweep_by, undo_by, unfold_by, counts as counts_of};
ghost use Rattle.zonemap_c.specs.Numbers.{state_in, tally_in, left_in, counted_in};

use crate::state::{hand_back, put_answer, put_counts, state_of};
use pyramid::Kind;

// Starts from the table's first D numbers.
#[unsafe(no_mangle)]
pub extern "C" fn zm_start(
    darts: u32,
    state: &mut [u32; 69],
    table: &mut [u32],
    history: &mut [u32],
    work: &mut [u32],
    place: &mut usize,
    second: &mut usize,
) -> u32
    ensures { left_in result place.new second.new state.new table.new history.new work.new
        ≡ start darts table.old history.old work.old }
{
    let outcome = pyramid::start(darts, table, history, work);
    hand_back(outcome, state, place, second)
}

// One level more: the kernel's edges contracted in the listed order. C has a function for each kind.
#[unsafe(no_mangle)]
pub extern "C" fn zm_contract(
    state: &mut [u32; 69],
    kernel: &[u32],
    table: &mut [u32],
    history: &mut [u32],
    work: &mut [u32],
    place: &mut usize,
    second: &mut usize,
) -> u32
    ensures { left_in result place.new second.new state.new table.new history.new work.new
        ≡ reduce_by contraction kernel.now (state_in state.old) table.old history.old work.old }
{
    let given = state_of(state);
    let outcome = given.reduce(Kind::Contract, kernel, table, history, work);
    hand_back(outcome, state, place, second)
}

// One level more: the kernel's edges removed in the listed order.
#[unsafe(no_mangle)]
pub extern "C" fn zm_remove(
    state: &mut [u32; 69],
    kernel: &[u32],
    table: &mut [u32],
    history: &mut [u32],
    work: &mut [u32],
    place: &mut usize,
    second: &mut usize,
) -> u32
    ensures { left_in result place.new second.new state.new table.new history.new work.new
        ≡ reduce_by removal kernel.now (state_in state.old) table.old history.old work.old }
{
    let given = state_of(state);
    let outcome = given.reduce(Kind::Remove, kernel, table, history, work);
    hand_back(outcome, state, place, second)
}

// One level more: the sweep.
#[unsafe(no_mangle)]
pub extern "C" fn zm_sweep(
    state: &mut [u32; 69],
    table: &mut [u32],
    history: &mut [u32],
    work: &mut [u32],
    place: &mut usize,
    second: &mut usize,
) -> u32
    ensures { left_in result place.new second.new state.new table.new history.new work.new
        ≡ sweep_by (state_in state.old) table.old history.old work.old }
{
    let given = state_of(state);
    let outcome = given.sweep(table, history, work);
    hand_back(outcome, state, place, second)
}

// The last level undone.
#[unsafe(no_mangle)]
pub extern "C" fn zm_undo(
    state: &mut [u32; 69],
    table: &mut [u32],
    history: &mut [u32],
    work: &mut [u32],
    place: &mut usize,
    second: &mut usize,
) -> u32
    ensures { left_in result place.new second.new state.new table.new history.new work.new
        ≡ undo_by (state_in state.old) table.old history.old work.old }
{
    let given = state_of(state);
    let outcome = given.undo(table, history, work);
    hand_back(outcome, state, place, second)
}

// Back to a level.
#[unsafe(no_mangle)]
pub extern "C" fn zm_unfold(
    state: &mut [u32; 69],
    level: u32,
    table: &mut [u32],
    history: &mut [u32],
    work: &mut [u32],
    place: &mut usize,
    second: &mut usize,
) -> u32
    ensures { left_in result place.new second.new state.new table.new history.new work.new
        ≡ unfold_by level (state_in state.old) table.old history.old work.old }
{
    let given = state_of(state);
    let outcome = given.unfold(level, table, history, work);
    hand_back(outcome, state, place, second)
}

// Surviving darts, vertices and faces of the present level, and its Euler number.
#[unsafe(no_mangle)]
pub extern "C" fn zm_counts(
    state: &[u32; 69],
    table: &mut [u32],
    history: &mut [u32],
    work: &mut [u32],
    counts: &mut [u32; 3],
    euler: &mut i32,
    place: &mut usize,
    second: &mut usize,
) -> u32
    ensures { counted_in result place.new second.new (tally_in counts.new euler.new) table.new history.new work.new
        ≡ counts_of (state_in state.now) table.old history.old work.old }
{
    let given = state_of(state);
    let counted = given.counts(table, history, work);
    put_counts(counted, counts, euler);
    put_answer(counted.map(|_| 0), place, second)
}
