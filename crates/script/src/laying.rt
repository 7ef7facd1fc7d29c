// The numbers, bytes and records of a line, put into a room.
use crate::scan::Line;
use crate::words::{Entry, Words, Wrong};

// Puts the entries of the words into a room from its start on, until the room is full, or up to a word that is none: None where there is one.
fn lay<T: Entry>(room: &mut [T], words: Words) -> Option<()> {
    for (slot, word) in room.iter_mut().zip(words) {
        *slot = T::of(word)?;
    }
    Some(())
}

// "puts the numbers into the room from place I on", or the bytes, or the records: an error line where one would lie outside it, and then none is put, or
// where one is none of the room's.
pub fn put<T: Entry>(room: &mut [T], line: Line) -> Result<(), Wrong> {
    let mut words = line.words;
    let place = words.next().and_then(u32::of).ok_or(Wrong)?;
    if line.count <= 1 {
        return Ok(());
    }
    let room = room.get_mut(place as usize..).ok_or(Wrong)?;
    if room.len() < line.count - 1 {
        return Err(Wrong);
    }
    lay(room, words).ok_or(Wrong)
}
