// The normal form of a written table (document 01, "Normal form").
#![tactic(auto)]

ghost use Rattle.std.specs.Prelude.{◌≡◌, ◌∷◌, [], ◌+◌, ◌*◌, ◌≤◌, ltb, length};
ghost use Rattle.model.specs.Task.{written, normal};
ghost use Rattle.model.specs.Command.{head, code_of};
ghost use Rattle.model.specs.Limits.{paper};
ghost use Rattle.model.specs.Calls.{normal_bytes, writes, normalise_answer, normalise_out};
ghost use Rattle.output.specs.Writing.{Written};
ghost use Rattle.output.specs.Answers.{Answered};
ghost use Rattle.table.specs.Outlines.{HeadRead};
ghost use Rattle.reader.specs.Written.{Source, Heads, read_task};
ghost use Rattle.normal.specs.Tables.{moves_print};

use model::{Reason, Refusal};
use reader::Blocks;
use table::Wanted;

// The normal form of the moves from `start` on: the offset behind it.
fn put_moves(blocks: &Blocks, out: &mut [u8], start: usize) -> usize
    requires { (Source blocks.now.table.now blocks.now.marks.now blocks.now.moves)
        × (start + length (moves_print (read_task blocks.now.table.now).moves) ≤ 64000) }
    ensures { Written out.old start (moves_print (read_task blocks.now.table.now).moves) out.new result }
{
    let mut to = start;
    for b in 0..blocks.moves {
        to = normal_block::put_block(blocks.part(b), 0x41, out, to);
    }
    to
}

// The head of the normal form: "4E P N A".
fn put_head(blocks: &Blocks, out: &mut [u8]) -> usize
    requires { (blocks.now.props ≤ 120) × (blocks.now.vars ≤ 16) × (blocks.now.moves ≤ 64) }
    ensures { Written out.old 0 (code_of (head normal) ∷ blocks.now.props ∷ 2 * blocks.now.vars ∷ blocks.now.moves ∷ []) out.new result }
{
    let next = output::put_pair(out, 0, 0x4E, blocks.props as u8);
    output::put_pair(out, next, (2 * blocks.vars) as u8, blocks.moves as u8)
}

// The normal form: the offset behind it.
fn put_table(blocks: &Blocks, out: &mut [u8]) -> usize
    requires { (Source blocks.now.table.now blocks.now.marks.now blocks.now.moves) × (Heads blocks.now.table.now blocks.now.props blocks.now.vars) }
    ensures { Written out.old 0 (normal_bytes (read_task blocks.now.table.now)) out.new result }
{
    let start = put_head(blocks, out);
    let goal = put_moves(blocks, out, start);
    let end = normal_block::put_block(blocks.part(blocks.moves), 0x47, out, goal);
    output::put_byte(out, end, 0x45)
}

// Is an output of `room` bytes too short for the normal form? One of twice the table's length is long enough; else a walk over no
// bytes gives the length.
fn too_short(blocks: &Blocks, room: usize) -> bool
    requires { HeadRead written blocks.now.table.now blocks.now.marks.now blocks.now.props blocks.now.vars blocks.now.moves }
    ensures { result ≡ ltb room (length (normal_bytes (read_task blocks.now.table.now))) }
{
    if room >= 2 * blocks.table.len() {
        return false;
    }
    let mut nothing: [u8; 0] = [];
    room < put_table(blocks, &mut nothing)
}

// Writes the normal form of an accepted table, if it fits.
fn write(blocks: &Blocks, out: &mut [u8]) -> Result<u64, Refusal>
    requires { HeadRead written blocks.now.table.now blocks.now.marks.now blocks.now.props blocks.now.vars blocks.now.moves }
    ensures { Answered (writes (normal_bytes (read_task blocks.now.table.now))) out.old out.new result }
{
    if too_short(blocks, out.len()) {
        return Err(Reason::OutputTooShort.at(0));
    }
    Ok(put_table(blocks, out) as u64)
}

// Writes the normal form of a written table: its length, or why the call turns back.
pub fn normalise(table: &[u8], out: &mut [u8]) -> Result<u64, Refusal>
    ensures { (result ≡ normalise_answer paper table.now out.old) × (out.new ≡ normalise_out paper table.now out.old) }
{
    let mut marks = [0; 66];
    let head = table::outline(table, Wanted::Written, &mut marks)?;
    write(&Blocks::new(table, &marks, head), out)
}
