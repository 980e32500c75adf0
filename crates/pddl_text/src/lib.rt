// The domain and the problem of the PDDL text of a written table and a state (document 02, request 1). Every function returns the
// offset behind what it writes, and writes only what fits (crate `output`).
#![tactic(auto)]

ghost use Rattle.std.specs.Prelude.{◌+◌, ◌*◌, ◌<◌, ◌≤◌, length};
ghost use Rattle.model.specs.Task.{Block};
ghost use Rattle.model.specs.StateTable.{state_of};
ghost use Rattle.model.specs.Pddl.{task_text};
ghost use Rattle.block.specs.Remaining.{Remaining};
ghost use Rattle.reader.specs.Written.{read_task, Source};
ghost use Rattle.output.specs.Writing.{Written, Room};
ghost use Rattle.pddl_sum.specs.Names.{each};
ghost use Rattle.pddl_text.specs.Documents.{truth_row, value_row, action_row, action_at, domain_pieces, problem_pieces};
ghost use Rattle.pddl_text.specs.Printable.{ActionPrintable, Printable};

use reader::Blocks;

// Move `b` of these items as an action.
fn put_action(part: &[u8], b: usize, out: &mut [u8], at: usize) -> usize
    requires { ActionPrintable part.now b at }
    ensures { (m : Block) → Remaining part.now 1 m → Written out.old at (action_row b m) out.new result }
{
    let number = output::put_bytes(out, at, b"\n  (:action a");
    let parameters = output::put_decimal(out, number, b as u64);
    let conditions = output::put_bytes(
        out,
        parameters,
        b"\n    :parameters ()\n    :precondition (and",
    );
    let effect = pddl_block::put_conditions(part, b"\n      ", out, conditions);
    let effects = output::put_bytes(out, effect, b")\n    :effect (and");
    let close = pddl_block::put_effects(part, b"\n      ", out, effects);
    output::put_bytes(out, close, b"))")
}

// The moves as actions.
fn put_actions(blocks: &Blocks, out: &mut [u8], at: usize) -> usize
    requires { (Source blocks.now.table.now blocks.now.marks.now blocks.now.moves)
        × Room at (each (action_at (read_task blocks.now.table.now)) 0 blocks.now.moves) }
    ensures { Written out.old at (each (action_at (read_task blocks.now.table.now)) 0 blocks.now.moves) out.new result }
{
    let mut to = at;
    for b in 0..blocks.moves {
        to = put_action(blocks.part(b), b, out, to);
    }
    to
}

// The domain.
fn put_domain(blocks: &Blocks, out: &mut [u8], at: usize) -> usize
    requires { (Source blocks.now.table.now blocks.now.marks.now blocks.now.moves)
        × Room at (domain_pieces (read_task blocks.now.table.now) blocks.now.props blocks.now.vars blocks.now.moves) }
    ensures { Written out.old at (domain_pieces (read_task blocks.now.table.now) blocks.now.props blocks.now.vars blocks.now.moves) out.new result }
{
    let predicates = output::put_bytes(
        out,
        at,
        b"(define (domain campaign)\n  (:requirements :strips :fluents)",
    );
    let functions = pddl_sum::put_declared(
        b"\n  (:predicates",
        b"\n    (p",
        blocks.props,
        out,
        predicates,
    );
    let actions = pddl_sum::put_declared(
        b"\n  (:functions",
        b"\n    (v",
        blocks.vars,
        out,
        functions,
    );
    let close = put_actions(blocks, out, actions);
    output::put_bytes(out, close, b")\n")
}

// The true propositions.
fn put_truths(state: &[u8], props: usize, out: &mut [u8], at: usize) -> usize
    requires { (props ≤ length state.now) × Room at (each (truth_row (state_of props state.now)) 0 props) }
    ensures { Written out.old at (each (truth_row (state_of props state.now)) 0 props) out.new result }
{
    let mut to = at;
    for (p, truth) in state[..props].iter().enumerate() {
        if *truth == 1 {
            to = pddl_sum::put_name(b"\n    (p", p, out, to);
        }
    }
    to
}

// A variable's value.
fn put_value(state: &[u8], props: usize, v: usize, out: &mut [u8], at: usize) -> usize
    requires { (props + 4 * v + 4 ≤ length state.now) × (v < 16) × Room at (value_row (state_of props state.now) v) }
    ensures { Written out.old at (value_row (state_of props state.now) v) out.new result }
{
    let z = integer::i32_at(state, props + 4 * v);
    let space = pddl_sum::put_name(b"\n    (= (v", v, out, at);
    let number = output::put_byte(out, space, 0x20);
    let close = pddl_sum::put_number(z, out, number);
    output::put_byte(out, close, 0x29)
}

// The values of the variables.
fn put_values(state: &[u8], props: usize, vars: usize, out: &mut [u8], at: usize) -> usize
    requires { (props + 4 * vars ≤ length state.now) × (vars ≤ 16) × Room at (each (value_row (state_of props state.now)) 0 vars) }
    ensures { Written out.old at (each (value_row (state_of props state.now)) 0 vars) out.new result }
{
    let mut to = at;
    for v in 0..vars {
        to = put_value(state, props, v, out, to);
    }
    to
}

// The problem.
fn put_problem(blocks: &Blocks, state: &[u8], out: &mut [u8], at: usize) -> usize
    requires { (Printable blocks.now.table.now blocks.now.marks.now blocks.now.props blocks.now.vars blocks.now.moves state.now)
        × Room at (problem_pieces (state_of blocks.now.props state.now) blocks.now.props blocks.now.vars (read_task blocks.now.table.now).goal) }
    ensures { Written out.old at
        (problem_pieces (state_of blocks.now.props state.now) blocks.now.props blocks.now.vars (read_task blocks.now.table.now).goal)
        out.new result }
{
    let truths = output::put_bytes(
        out,
        at,
        b"(define (problem start)\n  (:domain campaign)\n  (:init",
    );
    let values = put_truths(state, blocks.props, out, truths);
    let list = put_values(state, blocks.props, blocks.vars, out, values);
    let conditions = output::put_bytes(out, list, b")\n  (:goal (and");
    let goal = blocks.part(blocks.moves);
    let close = pddl_block::put_conditions(goal, b"\n    ", out, conditions);
    output::put_bytes(out, close, b")))\n")
}

// The domain, then the problem: their length.
pub fn put_text(blocks: &Blocks, state: &[u8], out: &mut [u8]) -> usize
    requires { Printable blocks.now.table.now blocks.now.marks.now blocks.now.props blocks.now.vars blocks.now.moves state.now }
    ensures { Written out.old 0 (task_text (read_task blocks.now.table.now) (state_of blocks.now.props state.now)) out.new result }
{
    let problem = put_domain(blocks, out, 0);
    put_problem(blocks, state, out, problem)
}
