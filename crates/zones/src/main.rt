// The program `zones`: runs a script of the library's calls from standard input, and prints a line for each call.
#![tactic(auto)]

mod calls;
mod lines;
mod prints;
mod rooms;

use rooms::ScriptRoom;
use std::io;
use std::io::{Read, Write};

// "A script is at most 3,000,000 bytes". One byte more says that it is longer.
fn run<R: Read, W: Write>(input: &mut R, out: &mut W, script: &mut ScriptRoom) -> io::Result<()> {
    let n = page::fill(input, script)?;
    if 3000000 < n {
        return page::line(out, "error=0");
    }
    lines::run(out, &script[..n])
}

// The room is made where it is lent, so that it stands on the stack once: what a function returns stands there twice.
fn main(rt: HostRuntime) -> io::Result<()> {
    let mut script = [0; 3000001];
    run(&mut rt.stdin(), &mut rt.stdout(), &mut script)
}
