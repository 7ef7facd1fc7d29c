// What is printed of a list.
use std::fmt;

// A list of numbers, "separated by one space". "An empty list leaves nothing, and no space". No `output` says its bytes: the library's `write_joined`
// promises nothing of what it writes.
#[derive(Clone, Copy)]
pub struct Numbers<'a>(pub &'a [u32]);

impl fmt::Display for Numbers<'_> {
    fn fmt<W: fmt::Write>(&self, f: &mut fmt::Formatter<W>) -> fmt::Result {
        f.write_joined(self.0.iter(), " ")
    }
}
