// The program `plan`: the file of a drawn plan. The drawing stands on standard input, one line a course, the highest course first, one byte a
// cell. The file of its base with the first kernel goes to standard output; with the word `base`, the file of the base alone.
#![tactic(auto)]

mod drawing;
mod file;
mod prints;
mod rooms;
mod words;

ghost use Rattle.std.specs.Prelude.{◌≡◌, ◌≤◌, OnErr, length};

use drawing::wrong_line;
use prints::{error, print};
use std::io;
use std::io::{Read, Write};
use words::{Wanted, asked, usage};

// The form is judged first, over the whole drawing.
fn judge<W: Write>(out: &mut W, drawing: &[u8], wanted: Wanted) -> io::Result<()>
    requires { length drawing.now ≤ 65536 }
{
    match wrong_line(drawing) {
        Some(line) => error(out, line),
        None => print(out, drawing, wanted),
    }
}

// A drawing has at most 65,536 bytes. One byte more says that it is longer.
fn read<R: Read, W: Write>(
    input: &mut R,
    out: &mut W,
    drawing: &mut [u8],
    wanted: Wanted,
) -> io::Result<()>
    ensures { OnErr result (length drawing.new ≡ length drawing.old) }
{
    let n = page::fill(input, drawing)?;
    if 65536 < n {
        return error(out, 0);
    }
    judge(out, &drawing[..n], wanted)
}

// The room is made where it is lent, so that it stands on the stack once. Not inlined, so that the usage, which needs no room, is printed without it.
#[inline(never)]
fn run<R: Read, W: Write>(input: &mut R, out: &mut W, wanted: Wanted) -> io::Result<()> {
    let mut drawing = [0; 65537];
    read(input, out, &mut drawing, wanted)
}

fn main(rt: HostRuntime) -> io::Result<()> {
    match asked(&rt) {
        Some(wanted) => run(&mut rt.stdin(), &mut rt.stdout(), wanted),
        None => usage(&mut rt.stderr()),
    }
}
