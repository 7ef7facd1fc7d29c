// A file read: its body into the work area, and from there, where it is a pyramid, into the lent table and history.
ghost use Rattle.std.specs.Prelude.{◌≡◌, ◌/◌, ◌≤◌, length};
ghost use Rattle.darts.specs.Read.{body, closed};
ghost use Rattle.darts.specs.Calls.{cleared, read_into, read as read_of};
ghost use Rattle.area.specs.Area.{Room};
ghost use Rattle.area.specs.Shape.{state_with};
ghost use Rattle.engine.specs.Held.{Beyond};
ghost use Rattle.pyramid.specs.Values.{state_of, figures_with, left};
ghost use Rattle.file_lines.specs.Lines.{opening_of};
ghost use Rattle.reader.specs.Parsed.{lines_at, BodyRead};
ghost use Rattle.reader.specs.Settled.{Accepted, Settled, handed};

use area::Figures;
use area::clear::clear;
use darts::Refusal;
use darts::answers::fit;
use engine::Cycles;
use engine::check::check_laid;
use file_lines::kernels::{Levels, kernels};
use file_lines::lines::{FirstLines, levels_line, opening};
use file_lines::pairs::{last_pairs, pairs};
use file_lines::scan::Scanned;
use pyramid::starting::unbased;
use pyramid::{Outcome, State};
use slices::copy;

// The lines after `levels=L`: the history's part of the work area gets the operations of the kernels, the map's part the numbers of the pairs. What they
// state, and the place where the pairs begin.
fn lines(
    bytes: &[u8],
    at: usize,
    first: FirstLines,
    levels: usize,
    work: &mut [u32],
) -> Scanned<Figures>
    requires room { Room first.darts work.old }
    requires levels_bound { levels ≤ 64 }
    ensures { BodyRead (lines_at levels first.darts bytes.now at) bytes.now first.darts first.flag work.old work.new result }
{
    let d = first.darts;
    let from = 3 * d;
    let to = 4 * d;
    let (said, next) = kernels(bytes, at, levels, d, &mut work[from..to])?;
    last_pairs(bytes, next, d, first.flag, &mut work[0..d])?;
    let Levels { operations, ends } = said;
    let file = Figures {
        darts: d,
        operations,
        levels,
        ends,
    };
    Ok((file, next))
}

// The body of a file, which follows its darts line.
fn parse(bytes: &[u8], at: usize, first: FirstLines, work: &mut [u32]) -> Scanned<Figures>
    requires { Room first.darts work.old }
    ensures { BodyRead (body first.darts bytes.now at) bytes.now first.darts first.flag work.old work.new result }
{
    let (levels, next) = levels_line(bytes, at)?;
    lines(bytes, next, first, levels, work)
}

// The pairs are read once more, now into the table, and the history gets the numbers that stand in the work area.
fn accept(
    bytes: &[u8],
    at: usize,
    flag: usize,
    file: Figures,
    table: &mut [u32],
    history: &mut [u32],
    work: &[u32],
)
    requires room { Room file.darts work.now }
    requires n_le_d { (file.operations ≤ file.darts) × (file.darts ≤ length table.old) × (file.operations ≤ length history.old) }
    ensures { Accepted bytes.now at file.darts flag file.operations table.old table.new history.old history.new work.now }
{
    let d = file.darts;
    let n = file.operations;
    // they were found when they were read first
    let _ = pairs(bytes, at, d, flag, table);
    let from = 3 * d;
    let to = from + n;
    copy(history, &work[from..to], n);
}

// The state that a file states, with the numbers of vertices and faces that the check found.
fn stated(file: Figures, found: Cycles) -> State
    requires { (file.darts ≤ 65536) × (file.operations ≤ 65536) × (file.levels ≤ 64) × (found.vertices ≤ 65536) × (found.faces ≤ 65536) }
    ensures { state_of result ≡ figures_with (state_with file) found.vertices found.faces }
{
    let Figures {
        darts,
        operations,
        levels,
        ends,
    } = file;
    State {
        darts: darts as u32,
        operations: operations as u32,
        levels: levels as u32,
        vertices: found.vertices as u32,
        faces: found.faces as u32,
        ends,
    }
}

// What stands in the work area, judged: table and history are written only where it is a pyramid. The state stores the numbers that the check found.
fn settle(
    bytes: &[u8],
    at: usize,
    flag: usize,
    file: Figures,
    table: &mut [u32],
    history: &mut [u32],
    work: &mut [u32],
) -> Result<State, Refusal>
    requires room { Room file.darts work.old }
    requires darts_in_bounds { (file.darts ≤ length table.old) × (file.darts / 2 ≤ length history.old) × (file.levels ≤ 64) }
    ensures { Settled (state_with file) bytes.now flag at table.old table.new history.old history.new
        work.old work.new result }
{
    let Some(found) = check_laid(work, file) else {
        return Err(Refusal::NoPyramid);
    };
    let pyramid = stated(file, found);
    accept(bytes, at, flag, file, table, history, work);
    Ok(pyramid)
}

// What follows the darts line, read into the work area and judged.
fn read_inside(
    bytes: &[u8],
    at: usize,
    first: FirstLines,
    table: &mut [u32],
    history: &mut [u32],
    work: &mut [u32],
) -> Result<State, Refusal>
    requires room { Room first.darts work.old }
    requires d_in_bounds { (first.darts ≤ length table.old) × (first.darts / 2 ≤ length history.old) }
    ensures work_after { handed result table.new history.new (cleared first.darts work.old)
        ≡ read_into table.old history.old work.old (closed (opening_of first) (body first.darts bytes.now at)) }
    ensures beyond { Beyond first.darts work.old work.new }
{
    let (file, pairs) = parse(bytes, at, first, work)?;
    settle(bytes, pairs, first.flag, file, table, history, work)
}

// A file read: D, then its levels and their kernels, then the table.
fn read_file(
    bytes: &[u8],
    table: &mut [u32],
    history: &mut [u32],
    work: &mut [u32],
) -> Result<State, Refusal>
    ensures { handed result table.new history.new work.new ≡ read_of bytes.now table.old history.old work.old }
{
    let (first, at) = opening(bytes)?;
    let d = first.darts;
    fit(d as u32, table.len(), history.len(), work.len())?;
    let state = read_inside(bytes, at, first, table, history, work);
    clear(work, d);
    state
}

// Reads a file. Table and history are written only when it is accepted.
#[tactic(auto, using(pyramid::proofs::Started::hands))]
pub fn read(bytes: &[u8], table: &mut [u32], history: &mut [u32], work: &mut [u32]) -> Outcome
    ensures { left result table.new history.new work.new
        ≡ read_of bytes.now table.old history.old work.old }
{
    match read_file(bytes, table, history, work) {
        Ok(state) => Outcome {
            state,
            answer: Ok(()),
        },
        Err(refusal) => unbased(Err(refusal)),
    }
}
