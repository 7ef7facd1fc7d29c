// What is printed of a call, and by `show`. Each line is written out at once, so that a script shows how far it came.
ghost use Rattle.std.specs.Prelude.{◌≤◌};

use crate::rooms::Rooms;
use lookup::Followed;
use page::Page;
use pyramid::{Refusal, State};
use script::prints::Numbers;
use script::sums::{FoundSums, Sums, sum};
use std::fmt::Display;
use std::io::Write;
use std::{fmt, io};

// "answer=A place=P second=S": of a call that is done 0, the bytes that it wrote, and 0.
#[derive(Clone, Copy)]
struct Answer(Result<usize, Refusal>);

impl fmt::Display for Answer {
    fn fmt<W: fmt::Write>(&self, f: &mut fmt::Formatter<W>) -> fmt::Result {
        let (number, place, second) = match self.0 {
            Ok(written) => (0, written, 0),
            Err(refusal) => (refusal.number(), refusal.place(), refusal.second()),
        };
        write!(f, "answer={number} place={place} second={second}")
    }
}

// "state=D N L V F"
#[derive(Clone, Copy)]
struct Figures(State);

impl fmt::Display for Figures {
    fn fmt<W: fmt::Write>(&self, f: &mut fmt::Formatter<W>) -> fmt::Result {
        let State {
            darts,
            operations,
            levels,
            vertices,
            faces,
            ..
        } = self.0;
        write!(f, "state={darts} {operations} {levels} {vertices} {faces}")
    }
}

// Prints the line of `successor`: no dart, and none passed, where it is refused.
pub fn print_found<W: Write>(
    out: &mut W,
    found: Result<Followed, Refusal>,
    sums: FoundSums,
) -> io::Result<()> {
    let answer = Answer(found.and(Ok(0)));
    let Followed { dart, passed } = found.unwrap_or(Followed { dart: 0, passed: 0 });
    page::line(
        out,
        format_args!("{answer} dart={dart} passed={passed} {sums}"),
    )
}

// The checksum of all 64 ends of a state.
fn sum_ends(state: State) -> u64 {
    sum(&state.ends)
}

impl Rooms {
    // The checksums of the ends, of T, H and W numbers and of n bytes, with the four after them.
    fn sums(&self, n: usize) -> Sums
        requires { n ≤ 599996 }
    {
        let lent = self.lent;
        Sums {
            ends: sum_ends(self.state),
            table: sum(&self.table[..lent.table + 4]),
            history: sum(&self.history[..lent.history + 4]),
            work: sum(&self.work[..lent.work + 4]),
            output: sum(&self.output[..n + 4]),
        }
    }

    // Prints the line of a call that was lent n bytes of output: "answer=A place=P second=S state=D N L V F ends=C table=C history=C work=C output=C", and what
    // the call has beside them.
    pub fn print<W: Write, D: Display + Drop>(
        &self,
        out: &mut W,
        answer: Result<usize, Refusal>,
        n: usize,
        beside: D,
    ) -> io::Result<()>
        requires { n ≤ 599996 }
    {
        let answer = Answer(answer);
        let state = Figures(self.state);
        let sums = self.sums(n);
        page::line(out, format_args!("{answer} {state} {sums}{beside}"))
    }

    // Prints state, table and history: "the first L ends (64 at most)", "the first D numbers of the table (T at most)" and "the first N (H at most)".
    pub fn show<W: Write>(&self, out: &mut W) -> io::Result<()> {
        let lent = self.lent;
        let levels = self.state.levels as usize;
        let d = (self.state.darts as usize).min(lent.table);
        let n = (self.state.operations as usize).min(lent.history);
        let state = self.state;
        let mut page = Page::<_, 4096>::new(out);
        write!(page, "{}", Figures(state))?;
        for end in state.ends.iter().take(levels) {
            write!(page, " {end}")?;
        }
        writeln!(page, "\ntable={}", Numbers(&self.table[..d]))?;
        writeln!(page, "history={}", Numbers(&self.history[..n]))?;
        page.flush()
    }
}
