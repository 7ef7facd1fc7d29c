// The lines of a script, one after another.
ghost use Rattle.std.specs.Prelude.{◌≡◌};
ghost use Rattle.pyramid.specs.Values.{figures_with, state_of};
ghost use Rattle.zones.specs.Kept.{KeptByIo};
ghost use Rattle.zones.specs.declared.lines.Stop.TheVariants.{Wrong as Stopped};

use crate::rooms::{Lent, Rooms};
use pyramid::State;
use script::laying::put;
use script::scan::{Line, next_line};
use script::words::{Command, Wrong, no_yarn};
use sheets::Zone;
use std::io;
use std::io::Write;

// Why a script goes no further: an error line, or an error of the writer.
#[derive(Drop)]
pub enum Stop {
    Wrong,
    Io(io::Error),
}

impl From<Wrong> for Stop {
    ghost from_gives = { λ _ stop. stop ≡ Stopped };

    fn from(_wrong: Wrong) -> Stop {
        Stop::Wrong
    }
}

impl From<io::Error> for Stop {
    fn from(error: io::Error) -> Stop {
        Stop::Io(error)
    }
}

// "sets the two numbers that the state stores, vertices and faces"
fn stored(state: State, vertices: u32, faces: u32) -> State
    ensures { state_of result ≡ figures_with (state_of state) vertices faces }
{
    State {
        vertices,
        faces,
        ..state
    }
}

impl Rooms {
    // "darts, operations, levels, then level ends; ends that are not given are 0", and so are the numbers of vertices and faces.
    fn given(&self, count: usize) -> State {
        let n = count.clamp(3, 67);
        let mut ends = [0; 64];
        ends[..n - 3].copy_from_slice(&self.numbers[3..n]);
        State {
            darts: self.numbers[0],
            operations: self.numbers[1],
            levels: self.numbers[2],
            vertices: 0,
            faces: 0,
            ends,
        }
    }

    // Does what a line asks for. Where the writer takes no more, plan and ends are as they were.
    fn obey<W: Write>(&mut self, out: &mut W, line: Line) -> Result<(), Stop>
        ensures { KeptByIo result self.old self.new }
    {
        let first = self.numbers[0];
        let second = self.numbers[1];
        let third = self.numbers[2];
        match line.command {
            Command::Lend => self.lent.lend(first, second, third)?,
            Command::Sheets => self.lent.lend_sheets(first, second)?,
            Command::Table => put(&mut self.table, line)?,
            Command::History => put(&mut self.history, line)?,
            Command::Ends => put(&mut self.ends, line)?,
            Command::Work => put(&mut self.work, line)?,
            Command::Plan => put(&mut self.plan, line)?,
            Command::Sheet => put(&mut self.sheet, line)?,
            Command::Kept => put(&mut self.kept, line)?,
            Command::Fill => self.work.fill(first),
            Command::State => self.state = self.given(line.count),
            Command::Stored => self.state = stored(self.state, first, second),
            Command::Counts => self.counts(out)?,
            Command::Successor => self.successor(out, first, second, third)?,
            Command::Write => self.write(out, first as usize)?,
            Command::Show => self.show(out)?,
            Command::Bytes => out.write_all(&self.output[..self.lent.written])?,
            Command::Costs => self.costs(out)?,
            Command::YarnStart
            | Command::YarnContract
            | Command::YarnRemove
            | Command::YarnSweep
            | Command::YarnUndo
            | Command::YarnUnfold => self.call_with(out, line)?,
            _ => self.call(out, line)?,
        }
        Ok(())
    }

    // The first line of a script, done: the script after it.
    fn line<'a, W: Write>(&mut self, out: &mut W, script: &'a [u8]) -> Result<&'a [u8], Stop> {
        let line = next_line(script, &mut self.numbers)?;
        self.obey(out, line)?;
        Ok(line.rest)
    }

    // Each line is done before the next is looked at. A line has a line feed at least, so there are no more lines than bytes.
    fn each<W: Write>(&mut self, out: &mut W, script: &[u8]) -> io::Result<()> {
        let mut rest = script;
        for k in 1..=script.len() {
            if rest.is_empty() {
                break;
            }
            match self.line(out, rest) {
                Ok(next) => rest = next,
                Err(Stop::Wrong) => return page::line(out, format_args!("error={k}")),
                Err(Stop::Io(error)) => return Err(error),
            }
        }
        Ok(())
    }
}

// Runs a script over rooms of zeros, made here and lent whole, so that they stand on the stack once. "At first each record is `0:0`": filled in afterwards,
// since an array of records that are not all zero would first stand on the stack beside the rooms.
pub fn run<W: Write>(out: &mut W, script: &[u8]) -> io::Result<()> {
    let none = Zone {
        stitches: 0,
        yarn: None,
    };
    let mut rooms = Rooms {
        state: State::base(0, 0, 0),
        lent: Lent {
            table: 0,
            history: 0,
            work: 0,
            sheet: 0,
            kept: 0,
            written: 0,
        },
        numbers: [0; 32772],
        table: [0; 65540],
        history: [0; 32772],
        ends: [0; 32772],
        work: [0; 262160],
        output: [0; 600000],
        plan: [0; 16388],
        sheet: [none; 65540],
        kept: [none; 32772],
    };
    rooms.sheet.fill(no_yarn());
    rooms.kept.fill(no_yarn());
    rooms.each(out, script)
}
