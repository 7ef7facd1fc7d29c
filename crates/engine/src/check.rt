// Is it a pyramid? Decided in the work area, in almost linear time. The kind that the coming kernel needs comes last, so that its forest then judges the kernel's
// edges. The base's vertices and faces are counted while they are labelled, and each operation has taken one of them away. Where all operations are contractions and
// no removals are coming, the faces are counted at the present level.
ghost use Rattle.std.specs.Prelude.{true, [], ◌≡◌, ◌/◌, ◌≤◌, length, is_ok, is_some};
ghost use Rattle.darts.specs.Calls.{table_of, past_of};
ghost use Rattle.darts.specs.Counts.{cycles};
ghost use Rattle.darts.specs.Kinds.{bit};
ghost use Rattle.darts.specs.Moves.{contractions_in};
ghost use Rattle.darts.specs.Tests.{shaped};
ghost use Rattle.area.specs.Area.{Room, table_in, past_in, around};
ghost use Rattle.area.specs.Shape.{state_with, history_in};
ghost use Rattle.operations.specs.Replay.{Numbered};
ghost use Rattle.engine.specs.Held.{Area};
ghost use Rattle.engine.specs.Checks.{coming_of, KindTried, BothTried, Decided, Checked, CheckedLaid};
ghost use Rattle.engine.specs.Counted.{cycles_in, FindsCycles, Takes, Taken};

use crate::Cycles;
use area::Figures;
use area::load::{load, relink};
use area::shape::{contractions, shape};
use darts::Kind;
use operations::back::take_back_last;
use operations::cycles::{label, replay};

// On the base: one tree for each face (for removals) or vertex (for contractions), and then the operations of this kind once more. How many trees there were; an
// error where an operation has the same on both sides.
pub fn try_kind(work: &mut [u32], d: usize, n: usize, kind: Kind) -> Result<usize, usize>
    requires area { Area d 0 work.old }
    requires numbered { Numbered d n work.old }
    ensures kind_tried { KindTried d n (bit kind) (bit kind) work.old work.new (is_ok result) }
    ensures cycles_value { cycles_in result ≡ cycles (around (bit kind) (table_in d work.old)) d [] d }
{
    let cycles = label(work, d, kind);
    if replay(work, d, n, kind) {
        return Ok(cycles);
    }
    Err(cycles)
}

// The other kind, and then this one. The numbers are the base's.
fn try_both(work: &mut [u32], d: usize, n: usize, kind: Kind) -> Option<Cycles>
    requires area { Area d 0 work.old }
    requires numbered { Numbered d n work.old }
    ensures both_tried { BothTried d n (bit kind) work.old work.new (is_some result) }
    ensures finds_cycles { FindsCycles d (table_in d work.old) [] result }
{
    let Ok(other) = try_kind(work, d, n, kind.other()) else {
        return None;
    };
    let Ok(last) = try_kind(work, d, n, kind) else {
        return None;
    };
    Some(match kind {
        Kind::Contract => Cycles {
            vertices: last,
            faces: other,
        },
        Kind::Remove => Cycles {
            vertices: other,
            faces: last,
        },
    })
}

// From the base's numbers to those after n operations, whose history numbers stand from a place on: each contraction took one vertex away, each removal one face.
pub fn present(numbers: &[u32], from: usize, n: usize, base: Cycles) -> Cycles
    requires { Takes from n numbers.now base }
    ensures { Taken from n numbers.now base result }
{
    let c = contractions(numbers, from, from + n);
    let vertices = base.vertices - c;
    let faces = base.faces - (n - c);
    Cycles { vertices, faces }
}

// Whether contractions are all that was done, and no kernel of removals is coming: then no face has gone, and none has to be judged.
fn only_contractions(work: &[u32], d: usize, n: usize, coming: Option<Kind>) -> bool
    requires room { Room d work.now }
    requires n_le_d { n ≤ d }
    ensures { result ≡ true → (coming_of coming ≤ 1 → 1 ≡ coming_of coming) × (contractions_in (history_in d n work.now) ≡ n) }
{
    let from = 3 * d;
    coming != Some(Kind::Remove) && contractions(work, from, from + n) == n
}

// The decision for a history of contractions alone, of a shape that fits the state. The faces of the present level are the base's, and have fewer darts: they are
// counted before anything is taken back.
fn decide_contracted(work: &mut [u32], state: Figures) -> Option<Cycles>
    requires area { Area state.darts state.operations work.old }
    requires work_value { shaped (state_with state) (history_in state.darts state.operations work.old) ≡ true }
    requires work_value_2 { contractions_in (history_in state.darts state.operations work.old) ≡ state.operations }
    ensures decided { Decided (state_with state) 1 work.old work.new (is_some result) }
    ensures finds_cycles { FindsCycles state.darts (table_in state.darts work.old) (past_in state.darts state.operations work.old) result }
{
    let d = state.darts;
    let n = state.operations;
    let faces = label(work, d, Kind::Remove);
    if !take_back_last(work, d, n, n) {
        return None;
    }
    let Ok(base) = try_kind(work, d, n, Kind::Contract) else {
        return None;
    };
    let vertices = base - n;
    Some(Cycles { vertices, faces })
}

// Whether the map in the work area, its history and the state are a pyramid, and how many vertices and faces it has then: the shape, then tests 6 to 15
// down to the base, then 16 and 17.
fn decide(work: &mut [u32], state: Figures, coming: Option<Kind>) -> Option<Cycles>
    requires { Area state.darts state.operations work.old }
    ensures decided { Decided (state_with state) (coming_of coming) work.old work.new (is_some result) }
    ensures finds_cycles { FindsCycles state.darts (table_in state.darts work.old) (past_in state.darts state.operations work.old) result }
{
    let d = state.darts;
    let n = state.operations;
    if !shape(work, state) {
        return None;
    }
    if only_contractions(work, d, n, coming) {
        return decide_contracted(work, state);
    }
    if !take_back_last(work, d, n, n) {
        return None;
    }
    let base = try_both(work, d, n, coming.unwrap_or(Kind::Contract))?;
    Some(present(work, 3 * d, n, base))
}

// Whether the state, the table's first D numbers and the history's first ones are a pyramid, and how many vertices and faces it has then. Where they are,
// the work area holds its map, loaded again where operations were taken back, and its forest judges the coming kernel.
pub fn check(
    work: &mut [u32],
    state: Figures,
    coming: Option<Kind>,
    table: &[u32],
    history: &[u32],
) -> Option<Cycles>
    requires room { Room state.darts work.old }
    requires darts_in_bounds { (state.darts ≤ length table.now) × (state.darts / 2 ≤ length history.now) }
    ensures checked { Checked (state_with state) (coming_of coming) table.now history.now work.old work.new (is_some result) }
    ensures finds_cycles { FindsCycles state.darts (table_of (state_with state) table.now) (past_of (state_with state) history.now) result }
{
    let d = state.darts;
    let n = state.operations;
    if d / 2 < n || !load(work, d, table, history, n) {
        return None;
    }
    let found = decide(work, state, coming)?;
    if n != 0 {
        load(work, d, table, history, n);
    }
    Some(found)
}

// The same of a table and a history that stand in their parts of the work area, as the reader leaves them. The history stays there.
pub fn check_laid(work: &mut [u32], state: Figures) -> Option<Cycles>
    requires { Room state.darts work.old }
    ensures checked_laid { CheckedLaid (state_with state) work.old work.new (is_some result) }
    ensures finds_cycles { FindsCycles state.darts (table_in state.darts work.old) (past_in state.darts state.operations work.old) result }
{
    if state.darts / 2 < state.operations || !relink(work, state.darts, state.operations) {
        return None;
    }
    decide(work, state, None)
}
