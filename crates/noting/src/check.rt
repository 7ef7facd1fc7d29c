// Is it a pyramid? The check of a call that is lent yarn sheets: as the plain check, and what each operation merges is noted on the way.
ghost use Rattle.std.specs.Prelude.{[], ◌/◌, ◌≤◌, length, is_some};
ghost use Rattle.darts.specs.Calls.{table_of, past_of};
ghost use Rattle.area.specs.Area.{Room, table_in, past_in};
ghost use Rattle.area.specs.Shape.{state_with};
ghost use Rattle.operations.specs.Replay.{Numbered};
ghost use Rattle.engine.specs.Counted.{FindsCycles};
ghost use Rattle.engine.specs.Held.{Area};
ghost use Rattle.yarn.specs.Calls.{base_of};
ghost use Rattle.noting.specs.Checks.{BaseReplayed, NoteDecided, NoteChecked, Reloads, Reloaded};

use crate::note::mark;
use crate::replay::replay;
use area::Figures;
use area::load::load;
use area::shape::shape;
use darts::Kind;
use engine::Cycles;
use engine::check::{present, try_kind};
use operations::back::take_back_last;
use operations::cycles::label;

// On the base: the removals on its faces, and then all operations on its vertices, with notes and links. The numbers are the base's.
fn replay_base(work: &mut [u32], d: usize, n: usize) -> Option<Cycles>
    requires area { Area d 0 work.old }
    requires numbered { Numbered d n work.old }
    requires n_bound { n ≤ d / 2 }
    ensures base_replayed { BaseReplayed d n work.old work.new (is_some result) }
    ensures finds_cycles { FindsCycles d (table_in d work.old) [] result }
{
    let Ok(faces) = try_kind(work, d, n, Kind::Remove) else {
        return None;
    };
    let vertices = label(work, d, Kind::Contract);
    mark(work, d);
    replay(work, d, n).then_some(Cycles { vertices, faces })
}

// Whether the map in the work area, its history and the state are a pyramid: the shape, then tests 6 to 15 down to the base, then 16 and 17. The
// numbers are the base's.
fn decide(work: &mut [u32], state: Figures) -> Option<Cycles>
    requires { Area state.darts state.operations work.old }
    ensures note_decided { NoteDecided (state_with state) work.old work.new (is_some result) }
    ensures finds_cycles { FindsCycles state.darts
        (base_of (state_with state) (table_in state.darts work.old) (past_in state.darts state.operations work.old)) [] result }
{
    let d = state.darts;
    let n = state.operations;
    if !shape(work, state) || !take_back_last(work, d, n, n) {
        return None;
    }
    replay_base(work, d, n)
}

// Whether the state, the table's first D numbers and the history's first ones are a pyramid. Where they are, the work area holds notes and links, and its
// forest judges a coming contraction kernel.
pub fn note_check(
    work: &mut [u32],
    state: Figures,
    table: &[u32],
    history: &[u32],
) -> Option<Cycles>
    requires room { Room state.darts work.old }
    requires darts_in_bounds { (state.darts ≤ length table.now) × (state.darts / 2 ≤ length history.now) }
    ensures note_checked { NoteChecked (state_with state) table.now history.now work.old work.new (is_some result) }
    ensures finds_cycles { FindsCycles state.darts (table_of (state_with state) table.now) (past_of (state_with state) history.now) result }
{
    let d = state.darts;
    let n = state.operations;
    if d / 2 < n || !load(work, d, table, history, n) {
        return None;
    }
    let base = decide(work, state)?;
    Some(present(history, 0, n, base))
}

// Table and history of a pyramid that was checked so, loaded again: the work area holds its map. Notes and forest are kept.
pub fn reload(work: &mut [u32], state: Figures, table: &[u32], history: &[u32])
    requires { Reloads (state_with state) table.now history.now work.old }
    ensures { Reloaded (state_with state) table.now history.now work.old work.new }
{
    load(work, state.darts, table, history, state.operations);
}
