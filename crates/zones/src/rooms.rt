// What a script holds from line to line.
ghost use Rattle.std.specs.Prelude.{◌≤◌};

use pyramid::State;
use script::scan::NumbersRoom;
use script::words::Wrong;
use sheets::Zone;

// The script's bytes, and one more, which says that it is too long.
pub type ScriptRoom = [u8; 3000001];

// "how much of table, history and work later calls are lent", and how many records of the sheet and of the kept ones: each leaves four of its room. And how
// many bytes of output the last accepted write wrote, which leaves four as well.
#[derive(Clone, Copy)]
pub struct Lent {
    pub table: usize,
    pub history: usize,
    pub work: usize,
    pub sheet: usize,
    pub kept: usize,
    pub written: usize,
    ghost of_table: { table ≤ 65536 },
    ghost of_history: { history ≤ 32768 },
    ghost of_work: { work ≤ 262156 },
    ghost of_sheet: { sheet ≤ 65536 },
    ghost of_kept: { kept ≤ 32768 },
    ghost of_output: { written ≤ 599996 },
}

impl Lent {
    // "lend T H W"
    pub fn lend(&mut self, table: u32, history: u32, work: u32) -> Result<(), Wrong> {
        if 65536 < table || 32768 < history || 262156 < work {
            return Err(Wrong);
        }
        self.table = table as usize;
        self.history = history as usize;
        self.work = work as usize;
        Ok(())
    }

    // "sheets S K"
    pub fn lend_sheets(&mut self, sheet: u32, kept: u32) -> Result<(), Wrong> {
        if 65536 < sheet || 32768 < kept {
            return Err(Wrong);
        }
        self.sheet = sheet as usize;
        self.kept = kept as usize;
        Ok(())
    }
}

// The state; how much of the rooms is lent; and the rooms, "all zero at the start": the numbers of a line, of table, history, each edge's end and work
// area, the bytes of output and plan, the records of the zones and those that were kept. With the script they have 7,680,265 bytes, and `costs` takes
// 262,144 more: less than the 8,388,608 of stack that a program is given as a rule.
#[derive(Drop)]
pub struct Rooms {
    pub state: State,
    pub lent: Lent,
    pub numbers: NumbersRoom,
    pub table: [u32; 65540],
    pub history: [u32; 32772],
    pub ends: [u32; 32772],
    pub work: [u32; 262160],
    pub output: [u8; 600000],
    pub plan: [u8; 16388],
    pub sheet: [Zone; 65540],
    pub kept: [Zone; 32772],
}
