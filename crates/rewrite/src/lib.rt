// The rewriter of stored tables (document 02, request 5): it "drops such moves and renumbers the others". A move that is kept stands
// in the new table byte for byte, and its number is how many are kept before it.
#![tactic(auto)]

ghost use Rattle.std.specs.Prelude.{◌≡◌, ◌∷◌, [], ◌+◌, ◌≤◌, ltb, length, get_or};
ghost use Rattle.model.specs.Limits.{paper};
ghost use Rattle.model.specs.Command.{moves_bytes};
ghost use Rattle.model.specs.Calls.{writes};
ghost use Rattle.model.specs.Rewrite.{active_moves, rewrote, rewrite_answer, rewrite_out};
ghost use Rattle.model.specs.Theorems.Rewriting.Accepted.{RewriteRight};
ghost use Rattle.output.specs.Writing.{Written};
ghost use Rattle.output.specs.Answers.{Answered};
ghost use Rattle.block.specs.Items.{Readable};
ghost use Rattle.rewrite.specs.Active.{IsActive, Kept, KeptCount};
ghost use Rattle.rewrite.specs.Stored.{stored_task, rewritten_bytes, Stored};

use block::ItemAt;
use model::{Reason, Refusal};
use reader::Blocks;
use table::Wanted;

// Does the block of this part change something: has it a 2B, a 2D or a 46?
fn is_active(part: &[u8]) -> bool
    requires { Readable part.now 1 }
    ensures { IsActive part.now result }
{
    let mut at = 1;
    loop {
        let item = block::next(part, at);
        match item {
            ItemAt::Add { .. } | ItemAt::Delete { .. } | ItemAt::Effect { .. } => {
                return true;
            }
            ItemAt::End => {
                return false;
            }
            _ => {}
        }
        at = block::behind(item);
    }
}

// Of one move, how many are kept: 1 or 0.
fn count_kept(part: &[u8]) -> usize
    requires { Readable part.now 1 }
    ensures { KeptCount part.now result }
{
    if is_active(part) { 1 } else { 0 }
}

// How many moves are kept.
fn count_moves(blocks: &Blocks) -> usize
    requires { Stored blocks.now.table.now blocks.now.marks.now blocks.now.moves }
    ensures { result ≡ length (active_moves (stored_task blocks.now.table.now).moves) }
{
    let mut kept = 0;
    for b in 0..blocks.moves {
        kept += count_kept(blocks.part(b));
    }
    kept
}

// The move of this part as it stands, if it is kept: the offset behind it.
fn put_kept(part: &[u8], out: &mut [u8], at: usize) -> usize
    requires { (Readable part.now 1) × (at + length part.now ≤ 128004) }
    ensures { Kept part.now out.old at out.new result }
{
    if !is_active(part) {
        return at;
    }
    output::put_bytes(out, at, part)
}

// The moves that are kept, from `start` on: the offset behind them.
fn put_moves(blocks: &Blocks, out: &mut [u8], start: usize) -> usize
    requires { (Stored blocks.now.table.now blocks.now.marks.now blocks.now.moves) × (start ≤ 4) }
    ensures { Written out.old start (moves_bytes (active_moves (stored_task blocks.now.table.now).moves)) out.new result }
{
    let mut to = start;
    for b in 0..blocks.moves {
        to = put_kept(blocks.part(b), out, to);
    }
    to
}

// The head, with the number of moves that are kept.
fn put_head(table: &[u8], kept: usize, out: &mut [u8]) -> usize
    requires { (4 ≤ length table.now) × (kept ≤ 64) }
    ensures { Written out.old 0 (get_or table.now 0 0 ∷ get_or table.now 1 0 ∷ get_or table.now 2 0 ∷ kept ∷ []) out.new result }
{
    let next = output::put_pair(out, 0, table[0], table[1]);
    output::put_pair(out, next, table[2], kept as u8)
}

// The rewritten table: the offset behind it.
fn put_table(blocks: &Blocks, kept: usize, out: &mut [u8]) -> usize
    requires { (Stored blocks.now.table.now blocks.now.marks.now blocks.now.moves)
        × (kept ≡ length (active_moves (stored_task blocks.now.table.now).moves)) }
    ensures { Written out.old 0 (rewritten_bytes blocks.now.table.now) out.new result }
{
    let start = put_head(blocks.table, kept, out);
    let goal = put_moves(blocks, out, start);
    let end = output::put_bytes(out, goal, blocks.part(blocks.moves));
    output::put_byte(out, end, 0x45)
}

// Is an output of `room` bytes too short for the rewritten table? One of the table's length is long enough; else a walk over no
// bytes gives the length.
fn too_short(blocks: &Blocks, kept: usize, room: usize) -> bool
    requires { (Stored blocks.now.table.now blocks.now.marks.now blocks.now.moves)
        × (kept ≡ length (active_moves (stored_task blocks.now.table.now).moves)) }
    ensures { result ≡ ltb room (length (rewritten_bytes blocks.now.table.now)) }
{
    if room >= blocks.table.len() {
        return false;
    }
    let mut nothing: [u8; 0] = [];
    room < put_table(blocks, kept, &mut nothing)
}

// Writes the rewritten table of an accepted one, if it fits.
fn write(blocks: &Blocks, out: &mut [u8]) -> Result<u64, Refusal>
    requires { Stored blocks.now.table.now blocks.now.marks.now blocks.now.moves }
    ensures { Answered (writes (rewritten_bytes blocks.now.table.now)) out.old out.new result }
{
    let kept = count_moves(blocks);
    if too_short(blocks, kept, out.len()) {
        return Err(Reason::OutputTooShort.at(0));
    }
    Ok(put_table(blocks, kept, out) as u64)
}

// Writes a stored table without the moves that do nothing: the length of the new one, or why the call turns back. What is written is a
// table that read takes, and lists solve the old table and it alike (`RewriteRight`).
pub fn rewrite(table: &[u8], out: &mut [u8]) -> Result<u64, Refusal>
    ensures { (result ≡ rewrite_answer paper table.now out.old)
        × (out.new ≡ rewrite_out paper table.now out.old)
        × RewriteRight paper table.now (length out.old) (rewrote paper table.now (length out.old)) }
{
    let mut marks = [0; 66];
    let head = table::outline(table, Wanted::Stored, &mut marks)?;
    write(&Blocks::new(table, &marks, head), out)
}
