// K12 of document 01 read and written back, from zero and from one; then damaged copies of it, at least one for each answer that the reader can give. A line
// for each: the answer's number and place.
#![tactic(auto)]

use page::Page;
use pyramid::Refusal;
use std::io;
use std::io::Write;

// The line of an answer, whose place is n where the call is done.
fn line<W: Write>(out: &mut W, answer: Result<usize, Refusal>) -> io::Result<()> {
    match answer {
        Ok(n) => writeln!(out, "answer=0 place={n}"),
        Err(refusal) => writeln!(out, "answer={} place={}", refusal.number(), refusal.place()),
    }
}

// The answer to a file, with tables for eight darts; and where it is accepted that of the writer, whose place is its length, and the file that is written back.
fn report<W: Write>(out: &mut W, file: &[u8]) -> io::Result<()> {
    let mut table = [0u32; 8];
    let mut history = [0u32; 4];
    let mut work = [9u32; 32];
    let read = reader::read(file, &mut table, &mut history, &mut work);
    line(out, read.answer.map(|_| 0))?;
    if read.answer.is_err() {
        return Ok(());
    }
    let mut output = [0u8; 97];
    let written = writer::write(read.state, &mut table, &mut history, &mut work, &mut output);
    line(out, written)?;
    out.write_all(&output)
}

// The files.
const FILES: [&str; 13] = [
    // From zero and from one.
    "numbers=0\ndarts=8\nlevels=2\nkernel=contract 2\nkernel=remove 1\npair=4 2\npair=4 5\npair=5 6\npair=6 7\n",
    "numbers=1\ndarts=8\nlevels=2\nkernel=contract 2\nkernel=remove 1\npair=5 3\npair=5 6\npair=6 7\npair=7 8\n",
    // Values that their line's end refuses: an odd number of darts, more darts than there is room for, 65 levels, an empty kernel.
    "numbers=0\ndarts=7\nlevels=2\nkernel=contract 2\nkernel=remove 1\npair=4 2\npair=4 5\npair=5 6\npair=6 7\n",
    "numbers=0\ndarts=10\nlevels=2\nkernel=contract 2\nkernel=remove 1\npair=4 2\npair=4 5\npair=5 6\npair=6 7\n",
    "numbers=0\ndarts=8\nlevels=65\nkernel=contract 2\nkernel=remove 1\npair=4 2\npair=4 5\npair=5 6\npair=6 7\n",
    "numbers=0\ndarts=8\nlevels=2\nkernel=contract 2\nkernel=remove 0\npair=4 2\npair=4 5\npair=5 6\npair=6 7\n",
    // Bytes that leave the form: byte nine is 2, a leading zero, the last line feed is missing, a line feed too many.
    "numbers=2\ndarts=8\nlevels=2\nkernel=contract 2\nkernel=remove 1\npair=4 2\npair=4 5\npair=5 6\npair=6 7\n",
    "numbers=0\ndarts=08\nlevels=2\nkernel=contract 2\nkernel=remove 1\npair=4 2\npair=4 5\npair=5 6\npair=6 7\n",
    "numbers=0\ndarts=8\nlevels=2\nkernel=contract 2\nkernel=remove 1\npair=4 2\npair=4 5\npair=5 6\npair=6 7",
    "numbers=0\ndarts=8\nlevels=2\nkernel=contract 2\nkernel=remove 1\npair=4 2\npair=4 5\npair=5 6\npair=6 7\n\n",
    // In good form, and no pyramid: kinds exchanged, pairs from zero read as from one, a pair that is no dart.
    "numbers=0\ndarts=8\nlevels=2\nkernel=remove 2\nkernel=contract 1\npair=4 2\npair=4 5\npair=5 6\npair=6 7\n",
    "numbers=1\ndarts=8\nlevels=2\nkernel=contract 2\nkernel=remove 1\npair=4 2\npair=4 5\npair=5 6\npair=6 7\n",
    "numbers=0\ndarts=8\nlevels=2\nkernel=contract 2\nkernel=remove 1\npair=4 2\npair=4 5\npair=5 6\npair=6 8\n",
];

// All of them.
fn main(rt: HostRuntime) -> io::Result<()> {
    let mut page = Page::<_, 4096>::new(rt.stdout());
    for file in &FILES {
        report(&mut page, file.as_bytes())?;
    }
    page.flush()
}
