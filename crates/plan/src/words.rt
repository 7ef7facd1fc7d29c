// The words that the program is started with.
use std::env::{Env, FillError};
use std::io;
use std::io::Write;

// What is asked for: the file of the base with its first kernel, or the file of the base alone.
#[derive(Clone, Copy, Debug, PartialEq, Eq)]
pub enum Wanted {
    Areas,
    Base,
}

// Whether there is a word of a number. The program's own name is word 0.
fn has<E: Env>(env: &E, i: usize) -> bool {
    let mut word = [0; 4];
    !matches!(env.arg(i, &mut word), Err(FillError::NotPresent))
}

// No word asks for the areas, the word `base` for the base, and any other for neither.
pub fn asked<E: Env>(env: &E) -> Option<Wanted> {
    let mut word = [0; 4];
    match env.arg(1, &mut word) {
        Err(FillError::NotPresent) => Some(Wanted::Areas),
        Ok(4) if &word == b"base" && !has(env, 2) => Some(Wanted::Base),
        _ => None,
    }
}

// What the program is for, where it is asked for something else.
pub fn usage<W: Write>(out: &mut W) -> io::Result<()> {
    out.write_all(
        b"usage: plan [base] < DRAWING\n\
        A drawing has a line for each course, the highest first, and a byte for each stitch; all lines have one length.\n\
        The file of its base with the first kernel goes to standard output; with the word base, the file of the base alone.\n",
    )
}
