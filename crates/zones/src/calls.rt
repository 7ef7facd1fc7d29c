// The calls. Each is lent the first T, H and W numbers of the rooms, and prints its line.
ghost use Rattle.zones.specs.Kept.{Kept};

use crate::lines::Stop;
use crate::prints::print_found;
use crate::rooms::Rooms;
use pyramid::{Counts, Kind, Outcome, Refusal};
use script::costs::print_costs;
use script::joining::find_zones;
use script::scan::Line;
use script::sums::{FoundSums, sum};
use script::words::{Command, Wrong};
use std::io;
use std::io::Write;

impl Rooms {
    // A call that hands back a state. The line's numbers are its kernel, of 32,772 edges at most; its first number is D or K. "The plan that is lent is the
    // room's first N bytes, N at most 16,384."
    fn handed(&mut self, line: Line) -> Result<Outcome, Wrong>
        ensures { Kept self.old self.new }
    {
        let state = self.state;
        let lent = self.lent;
        let first = self.numbers[0];
        let second = self.numbers[1];
        let n = self.numbers[2] as usize;
        let plan = &self.plan[..16384];
        let kernel = &self.numbers[..line.count.min(32772)];
        let table = &mut self.table[..];
        let history = &mut self.history[..];
        let work = &mut self.work[..];
        let sheet = &mut self.sheet[..];
        let kept = &mut self.kept[..];
        let table = &mut table[..lent.table];
        let history = &mut history[..lent.history];
        let work = &mut work[..lent.work];
        let sheet = &mut sheet[..lent.sheet];
        let kept = &mut kept[..lent.kept];
        Ok(match line.command {
            Command::Start => pyramid::start(first, table, history, work),
            Command::Contract => state.reduce(Kind::Contract, kernel, table, history, work),
            Command::Remove => state.reduce(Kind::Remove, kernel, table, history, work),
            Command::Sweep => state.sweep(table, history, work),
            Command::Undo => state.undo(table, history, work),
            Command::Unfold => state.unfold(first, table, history, work),
            Command::Read => reader::read(line.file, table, history, work),
            Command::Flat => {
                plans::plan(
                    first,
                    second,
                    plan.get(..n).ok_or(Wrong)?,
                    table,
                    history,
                    work,
                )
            }
            Command::FlatAreas => {
                plans::plan_areas(
                    first,
                    second,
                    plan.get(..n).ok_or(Wrong)?,
                    table,
                    history,
                    work,
                )
            }
            Command::YarnStart => { pyramid::start_with(first, table, history, work, sheet, kept) }
            Command::YarnContract => {
                state.reduce_with(Kind::Contract, kernel, table, history, work, sheet, kept)
            }
            Command::YarnRemove => {
                state.reduce_with(Kind::Remove, kernel, table, history, work, sheet, kept)
            }
            Command::YarnSweep => state.sweep_with(table, history, work, sheet, kept),
            Command::YarnUndo => state.undo_with(table, history, work, sheet, kept),
            Command::YarnUnfold => state.unfold_with(first, table, history, work, sheet, kept),
            // No call that hands back a state: such a command does not come here.
            _ => return Err(Wrong),
        })
    }

    // The state that a call hands back is held from then on, and is the one printed.
    fn hold(&mut self, line: Line) -> Result<Result<usize, Refusal>, Wrong>
        ensures { Kept self.old self.new }
    {
        let outcome = self.handed(line)?;
        self.state = outcome.state;
        Ok(outcome.answer.and(Ok(0)))
    }

    // A call without sheets.
    pub fn call<W: Write>(&mut self, out: &mut W, line: Line) -> Result<(), Stop>
        ensures { Kept self.old self.new }
    {
        let answer = self.hold(line)?;
        self.print(out, answer, 0, "")?;
        Ok(())
    }

    // A call with sheets, whose checksums stand at the end of its line.
    pub fn call_with<W: Write>(&mut self, out: &mut W, line: Line) -> Result<(), Stop>
        ensures { Kept self.old self.new }
    {
        let answer = self.hold(line)?;
        let sheet = sum(&self.sheet[..self.lent.sheet + 4]);
        let kept = sum(&self.kept[..self.lent.kept + 4]);
        self.print(out, answer, 0, format_args!(" sheet={sheet} kept={kept}"))?;
        Ok(())
    }

    // The counts of the state, at the end of the line. "Refused counts are four zeros".
    pub fn counts<W: Write>(&mut self, out: &mut W) -> io::Result<()>
        ensures { Kept self.old self.new }
    {
        let lent = self.lent;
        let table = &mut self.table[..];
        let history = &mut self.history[..];
        let work = &mut self.work[..];
        let counts = self.state.counts(
            &mut table[..lent.table],
            &mut history[..lent.history],
            &mut work[..lent.work],
        );
        let Counts {
            darts,
            vertices,
            faces,
            euler,
        } = counts.unwrap_or(Counts {
            darts: 0,
            vertices: 0,
            faces: 0,
            euler: 0,
        });
        self.print(
            out,
            counts.and(Ok(0)),
            0,
            format_args!(" darts={darts} vertices={vertices} faces={faces} euler={euler}"),
        )
    }

    // "write a file into N bytes of output", which leaves four bytes after them. The writer answers how many it wrote: n at most.
    pub fn write<W: Write>(&mut self, out: &mut W, n: usize) -> Result<(), Stop>
        ensures { Kept self.old self.new }
    {
        if 599996 < n {
            return Err(Stop::Wrong);
        }
        let lent = self.lent;
        let table = &mut self.table[..];
        let history = &mut self.history[..];
        let work = &mut self.work[..];
        let output = &mut self.output[..];
        let answer = writer::write(
            self.state,
            &mut table[..lent.table],
            &mut history[..lent.history],
            &mut work[..lent.work],
            &mut output[..n],
        );
        self.print(out, answer, n, "")?;
        if let Ok(written) = answer {
            self.lent.written = written.min(n);
        }
        Ok(())
    }

    // "the dart that follows X at level K", of T numbers of the table, H of the ends and W of the work area. The script's state stays.
    pub fn successor<W: Write>(
        &mut self,
        out: &mut W,
        darts: u32,
        level: u32,
        dart: u32,
    ) -> io::Result<()>
        ensures { Kept self.old self.new }
    {
        let lent = self.lent;
        let work = &mut self.work[..];
        let found = lookup::successor_at(
            darts,
            level,
            dart,
            &self.table[..lent.table],
            &self.ends[..lent.history],
            &mut work[..lent.work],
        );
        let sums = FoundSums {
            table: sum(&self.table[..lent.table + 4]),
            ends: sum(&self.ends[..lent.history + 4]),
            work: sum(&self.work[..lent.work + 4]),
        };
        print_found(out, found, sums)
    }

    // The zones of the present level among D darts, as the numbers stand: nothing is judged, and nothing changes. None is looked for where less is lent than
    // D numbers of the table, N of the history and D records.
    pub fn costs<W: Write>(&self, out: &mut W) -> io::Result<()> {
        let lent = self.lent;
        let d = self.state.darts as usize;
        let n = self.state.operations as usize;
        if lent.table < d || lent.history < n || lent.sheet < d {
            return Ok(());
        }
        let mut zones = [0; 65536];
        let zones = &mut zones[..d];
        find_zones(zones, &self.table[..d], &self.history[..n]);
        print_costs(out, &self.sheet, zones)
    }
}
