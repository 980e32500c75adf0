// Checks a bought list of moves against a written table and a state (document 02, request 9). The table is read once and the state is kept
// in arrays, so that an entry costs its block; the lent output is touched by a yes alone.
#![tactic(auto)]

ghost use Rattle.std.specs.Prelude.{◌≡◌};
ghost use Rattle.std.proofs.Math.Option.{none};
ghost use Rattle.model.specs.Limits.{paper};
ghost use Rattle.model.specs.Task.{written};
ghost use Rattle.model.specs.Reading.{only, reading};
ghost use Rattle.model.specs.StateTable.{state_refusal};
ghost use Rattle.schedule.specs.Check.{check_table, check_answer, check_out};
ghost use Rattle.schedule.specs.Theorems.Answers.{CheckRight};
ghost use Rattle.transition.specs.Turns.{Read};
ghost use Rattle.checker.specs.Replies.{Replied, Testable, Tested};

use model::Refusal;
use reader::Blocks;
use real_move::RealState;
use schedule::CheckAnswer;
use table::Wanted;

// The answer in the state after the list: "goal not met", or yes with that state.
fn finish(
    goal: &[u8],
    state: &RealState,
    props: usize,
    vars: usize,
    out: &mut [u8],
) -> Result<CheckAnswer, Refusal>
    requires { Testable goal.now props vars state.now.has state.now.values }
    ensures { Tested goal.now props vars state.now.has state.now.values out.old out.new result }
{
    if !block::applicable(goal, &state.has, &state.values) {
        return Ok(CheckAnswer::GoalNotMet);
    }
    let length = transition::put_state(state, props, vars, out)?;
    Ok(CheckAnswer::Yes { length })
}

// Runs the list from an accepted state.
fn follow(
    blocks: &Blocks,
    state: &[u8],
    list: &[u8],
    out: &mut [u8],
) -> Result<CheckAnswer, Refusal>
    requires { (Read blocks.now.table.now blocks.now.marks.now blocks.now.props blocks.now.vars blocks.now.moves) × (state_refusal paper blocks.now.props blocks.now.vars state.now ≡ none) }
    ensures { Replied (check_table paper (reading paper (only written) blocks.now.table.now) state.now list.now) out.old out.new result }
{
    match &transition::walk(blocks, state, list) {
        Ok(after) => {
            let goal = blocks.part(blocks.moves);
            finish(goal, after, blocks.props, blocks.vars, out)
        }
        Err(stop) => Ok(CheckAnswer::Fails {
            index: stop.index as u64,
            fault: stop.fault,
        }),
    }
}

// Checks a list of move bytes against a written table and a state: yes with the end state, the first entry that cannot be made, "goal not
// met", or why the call turns back. A yes means that the list solves the table with all its values in range (`CheckRight`).
pub fn check(
    table: &[u8],
    state: &[u8],
    list: &[u8],
    out: &mut [u8],
) -> Result<CheckAnswer, Refusal>
    ensures { (result ≡ check_answer paper table.now state.now list.now out.old)
        × (out.new ≡ check_out paper table.now state.now list.now out.old)
        × CheckRight paper table.now state.now list.now out.old out.new result }
{
    let mut marks = [0; 66];
    let head = table::outline(table, Wanted::Written, &mut marks)?;
    let blocks = Blocks::new(table, &marks, head);
    state::check(state, blocks.props, blocks.vars)?;
    follow(&blocks, state, list, out)
}
