// The program `levels`: a line for each level of the file on standard input, base first, and `end=ok`; or one line that says
// why the file is refused.
#![tactic(auto)]

ghost use Rattle.std.specs.Prelude.{◌≡◌, ◌+◌, IfOk};
ghost use Rattle.darts.specs.Cases.{refusal_of};
ghost use Rattle.pyramid.specs.Values.{left, tally_of, counts_left};
ghost use Rattle.levels.specs.Report.{level_at, counts_at, Tables, Refused, Accepted, LineOf, AllLines};

use page::Page;
use pyramid::{Counts, Outcome, Refusal};
use std::io;
use std::io::Write;

// The line of a refused file, which is lent for the contract alone: no other refusal can stand in its line.
fn refused<W: Write>(out: &mut W, file: &[u8], refusal: Refusal) -> io::Result<()>
    requires { Refused file.now (refusal_of refusal) }
{
    writeln!(out, "{refusal}")
}

// What the calls are lent, for 4,096 darts: "at least D numbers, the history with D/2 and the work area with 4D".
#[derive(Drop)]
struct Lent {
    table: [u32; 4096],
    history: [u32; 2048],
    work: [u32; 16384],
    ghost long: { Tables table history work },
}

impl Lent {
    // Level k of a file. It is read anew for each level, since unfolding changes the tables.
    fn unfolded(&mut self, file: &[u8], k: u32) -> Outcome
        ensures { left result self.new.table self.new.history self.new.work
            ≡ level_at k file.now self.old.table self.old.history self.old.work }
    {
        let top = reader::read(file, &mut self.table, &mut self.history, &mut self.work).state;
        top.unfold(k, &mut self.table, &mut self.history, &mut self.work)
    }

    // The counts of level k.
    fn counts_at(&mut self, file: &[u8], k: u32) -> Result<Counts, Refusal>
        ensures { counts_left result self.new.table self.new.history self.new.work
            ≡ counts_at k file.now self.old.table self.old.history self.old.work }
    {
        let state = self.unfolded(file, k).state;
        state.counts(&mut self.table, &mut self.history, &mut self.work)
    }
}

// The line of the next level, whose number is how many have theirs: so each level gets one, base first. Answers how many have theirs then. The file is lent
// for the contract alone: no other level's counts can stand in the line.
fn level<W: Write>(out: &mut W, file: &[u8], k: u32, counts: Counts) -> io::Result<u32>
    requires { LineOf k file.now (tally_of counts) }
    ensures { IfOk result (λ n. n ≡ k + 1) }
{
    let Counts {
        darts,
        vertices,
        faces,
        euler,
    } = counts;
    writeln!(
        out,
        "level={k} darts={darts} vertices={vertices} faces={faces} euler={euler}"
    )?;
    Ok(k + 1)
}

// The lines of the levels from the base to the top. Answers how many there are.
fn levels<W: Write>(out: &mut W, file: &[u8], top: u32, lent: &mut Lent) -> io::Result<u32>
    requires { Accepted file.now top }
    ensures { IfOk result (λ n. AllLines n file.now) }
{
    let mut said = 0;
    for k in 0..=top {
        let counts = lent.counts_at(file, k).unwrap();
        said = level(out, file, said, counts)?;
    }
    Ok(said)
}

// The last line, once every level has its own.
fn end<W: Write>(out: &mut W, file: &[u8], said: u32) -> io::Result<()>
    requires { AllLines said file.now }
{
    writeln!(out, "end=ok")
}

// All lines of a file.
fn report<W: Write>(out: &mut W, file: &[u8], lent: &mut Lent) -> io::Result<()> {
    let read = reader::read(file, &mut lent.table, &mut lent.history, &mut lent.work);
    match read.answer {
        Err(refusal) => refused(out, file, refusal),
        Ok(()) => {
            let said = levels(out, file, read.state.levels, lent)?;
            end(out, file, said)
        }
    }
}

fn print<W: Write>(out: &mut W, file: &[u8]) -> io::Result<()> {
    let mut lent = Lent {
        table: [0; 4096],
        history: [0; 2048],
        work: [0; 16384],
    };
    let mut page = Page::<_, 4096>::new(out);
    report(&mut page, file, &mut lent)?;
    page.flush()
}

// A file in good form for at most 4,096 darts has at most 36,255 bytes: 10 + 11 + 10 in the first three lines, 64 lines
// of at most 22 for the kernels and 2,048 of at most 17 for the pairs. A longer one has its first fault among its first
// 36,256: a byte out of form, a value that its line's end refuses (more than 4,096 darts or 64 levels are such values),
// or the byte after the last line. The answer and its place are those of the bytes up to there, so 65,536 of them are enough.
fn main(rt: HostRuntime) -> io::Result<()> {
    let mut file = [0u8; 65536];
    let n = page::fill(&mut rt.stdin(), &mut file)?;
    print(&mut rt.stdout(), &file[..n])
}
