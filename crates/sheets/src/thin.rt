// One record of a lent sheet, and how many there are: document 02 asks for "few thin functions over it".
ghost use Rattle.std.specs.Prelude.{◌≡◌, ◌<◌, length, set};
ghost use Rattle.sheets.specs.Records.{at};

use crate::Zone;

// How many records the sheet holds.
pub fn records(sheet: &[Zone]) -> usize
    ensures { result ≡ length sheet.now }
{
    sheet.len()
}

// The record at place i.
pub fn record_at(sheet: &[Zone], i: usize) -> Zone
    requires { i < length sheet.now }
    ensures { result ≡ at sheet.now i }
{
    sheet[i]
}

// The record z at place i; the others stay as they are.
pub fn put_record(sheet: &mut [Zone], i: usize, z: Zone)
    requires { i < length sheet.old }
    ensures { sheet.new ≡ set sheet.old i z }
{
    sheet[i] = z;
}
