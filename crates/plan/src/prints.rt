// What is printed: the file, the line of a refused plan, the line of a wrong drawing.
ghost use Rattle.std.specs.Prelude.{◌≡◌, ◌≤◌, OnErr, length};
ghost use Rattle.plan.specs.Drawing.{Right};
ghost use Rattle.plan.specs.Files.{printed, Holds};

use crate::rooms::Rooms;
use crate::words::Wanted;
use std::io;
use std::io::Write;

// Prints `error=` and a line's number.
pub fn error<W: Write>(out: &mut W, line: usize) -> io::Result<()> {
    page::line(out, format_args!("error={line}"))
}

impl Rooms {
    // Prints the file of a drawing, or the line of a refused plan, as `levels` gives it.
    fn print<W: Write>(&mut self, out: &mut W, drawing: &[u8], wanted: Wanted) -> io::Result<()>
        requires { Right drawing.now }
        ensures { OnErr result (Holds (printed wanted drawing.now self.old.table self.old.history self.old.work self.old.output)
            self.new.table self.new.history self.new.work self.new.output) }
    {
        match self.file(drawing, wanted) {
            Ok(n) => out.write_all(&self.output[..n]),
            Err(refusal) => page::line(out, refusal),
        }
    }
}

// The same, over rooms of zeros, made here and lent whole, so that they stand on the stack once.
pub fn print<W: Write>(out: &mut W, drawing: &[u8], wanted: Wanted) -> io::Result<()>
    requires { Right drawing.now }
{
    let mut rooms = Rooms {
        plan: [0; 65536],
        table: [0; 65024],
        history: [0; 32512],
        work: [0; 260096],
        output: [0; 552757],
    };
    rooms.print(out, drawing, wanted)
}
