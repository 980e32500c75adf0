// Real moves of a written table (document 01, "Moves"): those of a list, and one, which is a list of one.
#![tactic(auto)]

ghost use Rattle.std.specs.Prelude.{◌≡◌};
ghost use Rattle.std.proofs.Math.Option.{none};
ghost use Rattle.model.specs.Reading.{only, reading};
ghost use Rattle.model.specs.Limits.{paper};
ghost use Rattle.model.specs.StateTable.{state_of, state_refusal, state_bytes};
ghost use Rattle.model.specs.Calls.{writes, step_of, step_answer, step_out};
ghost use Rattle.model.specs.Task.{written};
ghost use Rattle.state.specs.Storing.{state_in};
ghost use Rattle.output.specs.Answers.{Answered};
ghost use Rattle.real_move.specs.Moving.{Holds, Putable};
ghost use Rattle.transition.specs.Turns.{Read, Turnable, Turned};
ghost use Rattle.transition.specs.Entries.{MovesMade, WalkedOut};
ghost use Rattle.transition.specs.Steps.{Loadable, refusal_of};

use model::{Reason, Refusal};
use reader::Blocks;
use real_move::RealState;
use schedule::Fault;
use table::Wanted;

// The first entry of a list that cannot be made, and why.
#[derive(Clone, Copy)]
pub struct Stop {
    pub index: usize,
    pub fault: Fault,
}

// Stores a state, if it fits.
pub fn put_state(
    state: &RealState,
    props: usize,
    vars: usize,
    out: &mut [u8],
) -> Result<u64, Refusal>
    requires { Putable props vars state.now.has state.now.values }
    ensures { Answered (writes (state_bytes props vars (state_in state.now.has state.now.values))) out.old out.new result }
{
    let size = props + 4 * vars;
    if out.len() < size {
        return Err(Reason::OutputTooShort.at(0));
    }
    state::store(out, &state.has, &state.values, props, vars);
    Ok(size as u64)
}

// Loads the state that accepted bytes stand for.
fn load(state: &[u8], props: usize, vars: usize, into: &mut RealState)
    requires { Loadable state.now props vars }
    ensures { Holds props vars into.new.has into.new.values (state_of props state.now) }
{
    state::load_truths(state, props, &mut into.has);
    state::load_values(state, props, vars, &mut into.values);
}

// Makes move `chosen` of an accepted table on a state that `next` holds too.
fn make_move(
    blocks: &Blocks,
    chosen: usize,
    state: &mut RealState,
    next: &mut RealState,
) -> Result<(), Fault>
    requires { Turnable blocks.now.table.now blocks.now.marks.now blocks.now.props blocks.now.vars blocks.now.moves state.old.has state.old.values next.old.has next.old.values }
    ensures { Turned blocks.now.table.now blocks.now.marks.now blocks.now.props blocks.now.vars blocks.now.moves chosen state.old.has state.old.values next.old.has next.old.values state.new.has state.new.values next.new.has next.new.values result }
{
    if chosen >= blocks.moves {
        return Err(Fault::Missing);
    }
    let part = blocks.part(chosen);
    real_move::make(part, blocks.props, blocks.vars, state, next)
}

// Makes the moves of a list, one after the other, on a state that `next` holds too.
fn make_moves(
    blocks: &Blocks,
    list: &[u8],
    state: &mut RealState,
    next: &mut RealState,
) -> Result<(), Stop>
    requires { Turnable blocks.now.table.now blocks.now.marks.now blocks.now.props blocks.now.vars blocks.now.moves state.old.has state.old.values next.old.has next.old.values }
    ensures { MovesMade blocks.now.table.now blocks.now.marks.now blocks.now.props blocks.now.vars blocks.now.moves list.now state.old.has state.old.values next.old.has next.old.values state.new.has state.new.values result }
{
    for (index, chosen) in list.iter().enumerate() {
        if let Err(fault) = make_move(blocks, *chosen as usize, state, next) {
            return Err(Stop { index, fault });
        }
    }
    Ok(())
}

// Makes the moves of a list from an accepted state: the state after them, or the first that cannot be made.
pub fn walk(blocks: &Blocks, state: &[u8], list: &[u8]) -> Result<RealState, Stop>
    requires { (Read blocks.now.table.now blocks.now.marks.now blocks.now.props blocks.now.vars blocks.now.moves) × (state_refusal paper blocks.now.props blocks.now.vars state.now ≡ none) }
    ensures { WalkedOut blocks.now.table.now blocks.now.marks.now blocks.now.props blocks.now.vars blocks.now.moves state.now list.now result }
{
    let mut after = RealState {
        has: [false; 120],
        values: [0; 16],
    };
    load(state, blocks.props, blocks.vars, &mut after);
    let mut next = after;
    make_moves(blocks, list, &mut after, &mut next)?;
    Ok(after)
}

// Step's refusal of a move.
fn refusal(fault: Fault) -> Refusal
    ensures { result ≡ refusal_of fault }
{
    Refusal {
        number: schedule::fault_number(fault),
        place: 0,
    }
}

// Makes the chosen move, a list of one, and stores the state after it.
fn choose(blocks: &Blocks, state: &[u8], chosen: u64, out: &mut [u8]) -> Result<u64, Refusal>
    requires { (Read blocks.now.table.now blocks.now.marks.now blocks.now.props blocks.now.vars blocks.now.moves) × (state_refusal paper blocks.now.props blocks.now.vars state.now ≡ none) }
    ensures { Answered (step_of paper (reading paper (only written) blocks.now.table.now) state.now chosen) out.old out.new result }
{
    if chosen >= blocks.moves as u64 {
        return Err(refusal(Fault::Missing));
    }
    let list = [chosen as u8];
    match &walk(blocks, state, &list) {
        Ok(after) => put_state(after, blocks.props, blocks.vars, out),
        Err(stop) => Err(refusal(stop.fault)),
    }
}

// Makes one real move of a written table: the length of the state, or why the call turns back.
pub fn step(table: &[u8], state: &[u8], chosen: u64, out: &mut [u8]) -> Result<u64, Refusal>
    ensures { (result ≡ step_answer paper table.now state.now chosen out.old) × (out.new ≡ step_out paper table.now state.now chosen out.old) }
{
    let mut marks = [0; 66];
    let head = table::outline(table, Wanted::Written, &mut marks)?;
    let blocks = Blocks::new(table, &marks, head);
    state::check(state, blocks.props, blocks.vars)?;
    choose(&blocks, state, chosen, out)
}
