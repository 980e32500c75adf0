// One layer down: from the wants of layer t to those of layer t−1, with the counts of the moves taken there (document 01, "Plan").
#![tactic(auto)]

ghost use Rattle.std.specs.Prelude.{◌-◌, ◌<◌};
ghost use Rattle.descent.specs.Layers.{GoalWantable, GoalWanted, LayerDescendable, LayerDescended};

use reader::Blocks;
use taking::Below;
use targets::Targets;

// "Begin with the goal in m": what is wanted in the answer layer `m`.
pub fn want_goal(blocks: &Blocks, layers: &[i64], start: &[i64], m: usize) -> Targets
    requires { GoalWantable blocks.now.table.now blocks.now.marks.now layers.now start.now blocks.now.props blocks.now.vars blocks.now.moves m }
    ensures { (x : GoalWantable blocks.now.table.now blocks.now.marks.now layers.now start.now blocks.now.props blocks.now.vars blocks.now.moves m)
        → GoalWanted x result }
{
    let Blocks {
        props,
        vars,
        moves,
        ..
    } = *blocks;
    let mut row = [0; 32];
    let mut lows = [0; 32];
    stored_layer::read_row(layers, props + moves + vars * m, vars, &mut row);
    stored_layer::low_row(&row, start, vars, &mut lows);
    Targets::none().want_block(blocks.part(moves), &row, &lows)
}

// "At layer t ≥ 1": from the wants of layer `t` to those of layer t−1, with the counts of the moves taken there.
pub fn descend(
    wants: Targets,
    blocks: &Blocks,
    layers: &[i64],
    start: &[i64],
    t: usize,
    counts: &mut [u64; 64],
) -> Targets
    requires { (LayerDescendable blocks.now.table.now blocks.now.marks.now layers.now start.now blocks.now.props blocks.now.vars blocks.now.moves (t - 1) wants) × (0 < t) }
    ensures { (x : LayerDescendable blocks.now.table.now blocks.now.marks.now layers.now start.now blocks.now.props blocks.now.vars blocks.now.moves (t - 1) wants)
        → LayerDescended x result counts.new }
{
    let Blocks {
        props,
        vars,
        moves,
        ..
    } = *blocks;
    let lower = t - 1;
    let mut has = [false; 120];
    let mut used = [false; 120];
    let mut row = [0; 32];
    let mut lows = [0; 32];
    stored_layer::read_entries(layers, 0, props, lower, &mut has);
    stored_layer::read_entries(layers, props, moves, lower, &mut used);
    stored_layer::read_row(layers, props + moves + vars * lower, vars, &mut row);
    stored_layer::low_row(&row, start, vars, &mut lows);
    let below = Below {
        has: &has,
        used: &used,
        row: &row,
        lows: &lows,
    };
    let carried = wants.carry_down(&has, &row, props, vars);
    let taken = taking::take_props(carried, &wants.props, blocks, &below, counts);
    taking::take_values(taken, &wants.target, blocks, &below, start, counts)
}
