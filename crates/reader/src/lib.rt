// "A reader stands on a table at one command": a table and the offset of a command in it. It hands back a part of its table,
// "neither copy nor offsets". `Blocks` serves every crate above with the parts of an accepted table's blocks.
#![tactic(auto)]

ghost use Rattle.std.specs.Prelude.{◌≡◌, ◌≤◌, length, get_or};
ghost use Rattle.model.specs.Limits.{paper};
ghost use Rattle.model.specs.Calls.{block_part, block_start, block_refusal, refusal_number, refusal_place};
ghost use Rattle.table.specs.Outlines.{part_at};
ghost use Rattle.reader.specs.Parts.{LiesAt, IsCut, PartIn};

use model::{Head, Reason};
use table::Wanted;

#[derive(Clone, Copy)]
struct Reader<'a> {
    table: &'a [u8],
    at: usize,
}

// The bytes between two offsets, a part of the table.
fn cut<'a>(table: &'a [u8], from: usize, to: usize) -> &'a [u8]
    requires { (from ≤ to) × (to ≤ length table.now) }
    ensures { IsCut table.entry from to result }
{
    &table[from..to]
}

impl<'a> Reader<'a> {
    // A reader on the command at an offset.
    fn on(table: &'a [u8], at: usize) -> Self
        ensures { (result.table ≡ table.entry) × (result.at ≡ at) }
    {
        Reader { table, at }
    }

    // The bytes from the command that it stands on up to an offset, a part of its table.
    fn block(self, to: usize) -> &'a [u8]
        requires { (self.at ≤ to) × (to ≤ length self.table.now) }
        ensures { IsCut self.entry.table self.entry.at to result }
    {
        cut(self.table, self.at, to)
    }
}

// "hands back the bytes of one block as a part of the caller's table": block `b` of an accepted table, from the offsets that
// `table::outline` left in `marks`.
pub fn part<'a>(table: &'a [u8], marks: &[usize], b: usize) -> &'a [u8]
    requires { PartIn table.now marks.now b }
    ensures { (result.now ≡ part_at table.now marks.now b) × LiesAt table.entry (get_or marks.now b 0) result }
{
    Reader::on(table, marks[b]).block(marks[b + 1])
}

// The blocks of an accepted table: its bytes, the offsets that `table::outline` left, and the counts of its head.
#[derive(Clone, Copy)]
pub struct Blocks<'t, 'm> {
    pub table: &'t [u8],
    pub marks: &'m [usize],
    pub props: usize,
    pub vars: usize,
    pub moves: usize,
}

impl<'t, 'm> Blocks<'t, 'm> {
    // Those of a table from what `table::outline` answers and leaves.
    pub fn new(table: &'t [u8], marks: &'m [usize], head: Head) -> Self
        ensures { result ≡ record { table = table.entry; marks = marks.entry; props = head.props; vars = head.vars; moves = head.moves } }
    {
        Blocks {
            table,
            marks,
            props: head.props as usize,
            vars: head.vars as usize,
            moves: head.moves as usize,
        }
    }

    // The same of these blocks.
    pub fn part(&self, b: usize) -> &'t [u8]
        requires { PartIn self.now.table.now self.now.marks.now b }
        ensures { (result.now ≡ part_at self.now.table.now self.now.marks.now b)
            × LiesAt self.entry.now.table (get_or self.now.marks.now b 0) result }
    {
        part(self.table, self.marks, b)
    }
}

// The block reader: block b is move b, and block A the goal. "It makes all checks of read first; a refusal hands back an empty
// part", and `number` and `place` say why; otherwise both are 0.
pub fn block_at<'a>(table: &'a [u8], b: u64, number: &mut u64, place: &mut u64) -> &'a [u8]
    ensures { (result.now ≡ block_part paper table.now b)
        × (number.new ≡ refusal_number (block_refusal paper table.now b))
        × (place.new ≡ refusal_place (block_refusal paper table.now b))
        × LiesAt table.entry (block_start paper table.now b) result }
{
    let mut marks = [0; 66];
    match table::outline(table, Wanted::Both, &mut marks) {
        Err(reason) => {
            *number = reason.number;
            *place = reason.place;
            &table[0..0]
        }
        Ok(Head { moves, .. }) => {
            if moves < b {
                *number = Reason::Missing.number();
                *place = 0;
                return &table[0..0];
            }
            *number = 0;
            *place = 0;
            part(table, &marks, b as usize)
        }
    }
}
