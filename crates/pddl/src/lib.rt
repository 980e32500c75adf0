// A written table and a state as PDDL 2.1 text, a domain and then a problem (document 02, request 1).
#![tactic(auto)]

ghost use Rattle.std.specs.Prelude.{◌≡◌, ltb, length};
ghost use Rattle.model.specs.Limits.{paper};
ghost use Rattle.model.specs.Calls.{writes};
ghost use Rattle.model.specs.StateTable.{state_of};
ghost use Rattle.model.specs.Pddl.{task_text, pddl_answer, pddl_out};
ghost use Rattle.reader.specs.Written.{read_task};
ghost use Rattle.output.specs.Answers.{Answered};
ghost use Rattle.pddl_text.specs.Printable.{Printable};

use model::{Reason, Refusal};
use reader::Blocks;
use table::Wanted;

// Is an output of `room` bytes too short for the text? A walk over no bytes gives its length; an output of ten bytes for each byte of
// the table and 10,000 more is long enough without it.
fn too_short(blocks: &Blocks, state: &[u8], room: usize) -> bool
    requires { Printable blocks.now.table.now blocks.now.marks.now blocks.now.props blocks.now.vars blocks.now.moves state.now }
    ensures { result ≡ ltb room (length (task_text (read_task blocks.now.table.now) (state_of blocks.now.props state.now))) }
{
    if room >= 10 * blocks.table.len() + 10000 {
        return false;
    }
    let mut nothing: [u8; 0] = [];
    room < pddl_text::put_text(blocks, state, &mut nothing)
}

// Writes the text, if it fits.
fn write(blocks: &Blocks, state: &[u8], out: &mut [u8]) -> Result<u64, Refusal>
    requires { Printable blocks.now.table.now blocks.now.marks.now blocks.now.props blocks.now.vars blocks.now.moves state.now }
    ensures { Answered (writes (task_text (read_task blocks.now.table.now) (state_of blocks.now.props state.now))) out.old out.new result }
{
    if too_short(blocks, state, out.len()) {
        return Err(Reason::OutputTooShort.at(0));
    }
    Ok(pddl_text::put_text(blocks, state, out) as u64)
}

// Writes a written table and a state as PDDL 2.1 text: its length, or why the call turns back.
pub fn pddl(table: &[u8], state: &[u8], out: &mut [u8]) -> Result<u64, Refusal>
    ensures { (result ≡ pddl_answer paper table.now state.now out.old) × (out.new ≡ pddl_out paper table.now state.now out.old) }
{
    let mut marks = [0; 66];
    let head = table::outline(table, Wanted::Written, &mut marks)?;
    let blocks = Blocks::new(table, &marks, head);
    state::check(state, blocks.props, blocks.vars)?;
    write(&blocks, state, out)
}
