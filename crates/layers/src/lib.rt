// Building layers in a lent memory (document 01, "Layers"), and `decide`.
#![tactic(auto)]

ghost use Rattle.std.specs.Prelude.{◌≡◌};
ghost use Rattle.model.specs.Theorems.Campaigns.Demand3.{decide_layers};
ghost use Rattle.model.specs.Theorems.Campaigns.EndToEnd.{LayersWithin};
ghost use Rattle.model.specs.Limits.{paper};
ghost use Rattle.model.specs.Calls.{decide_answer, decide_memory};
ghost use Rattle.layers.specs.Preparing.{IsPrepared};
ghost use Rattle.layers.specs.Goal.{GoalTestable, IsMet};
ghost use Rattle.layers.specs.Building.{Growable, Grown};
ghost use Rattle.layers.specs.Starting.{Buildable, Builds};

use layer_memory::Layer;
use layer_step::NextLayer;
use model::{DecideAnswer, Head, Reason, Refusal};
use reader::Blocks;
use table::Wanted;

// How building layers ends where nothing is refused: with the answer layer, or with "no plan" and the layers.
#[derive(Clone, Copy)]
pub enum Built {
    Reached { layer: u64 },
    Exhausted { layers: u64 },
}

// Does the layer meet the goal?
fn goal_met(blocks: &Blocks, layer: &Layer) -> bool
    requires { GoalTestable blocks.now.table.now blocks.now.marks.now blocks.now.moves layer.now.has layer.now.row }
    ensures { IsMet blocks.now.table.now blocks.now.marks.now blocks.now.moves layer.now.has layer.now.row result }
{
    block::usable(blocks.part(blocks.moves), &layer.has, &layer.row)
}

// Builds layers from layer 0, which stands in the memory and in `layer`. "Reported layers: the number of the last stored
// layer": the loop's own count is carried in the answer.
fn grow(blocks: &Blocks, mut layer: Layer, layers: &mut [i64]) -> Result<Built, Refusal>
    requires { Growable blocks.now.table.now blocks.now.marks.now blocks.now.props blocks.now.vars blocks.now.moves layer.has layer.row layers.old }
    ensures { Grown blocks.now.table.now blocks.now.marks.now blocks.now.props blocks.now.vars blocks.now.moves layer.has layer.row layers.old layers.new result }
{
    let mut used = [false; 64];
    let mut end = blocks.props + blocks.moves + blocks.vars;
    let mut t: u64 = 0;
    loop {
        if goal_met(blocks, &layer) {
            return Ok(Built::Reached { layer: t });
        }
        let mut next = layer;
        let place = t + 1;
        let behind = &mut layers[end..];
        match layer_step::step(blocks, &layer, &mut next, &mut used, behind) {
            Err(reason) => return Err(reason.at(place as usize)),
            Ok(NextLayer::Same) => {
                layer_memory::note_moves(layers, &used, blocks.props, blocks.moves, t);
                return Ok(Built::Exhausted { layers: t });
            }
            Ok(NextLayer::New) => {
                layer_memory::note_moves(layers, &used, blocks.props, blocks.moves, t);
                layer_memory::note(layers, &next.has, blocks.props, place);
                layer = next;
                end += blocks.vars;
                t = place;
            }
        }
    }
}

// Builds the layers of an outlined normal table from an accepted state in the memory.
pub fn build(blocks: &Blocks, state: &[u8], layers: &mut [i64]) -> Result<Built, Refusal>
    requires { Buildable blocks.now.table.now blocks.now.marks.now blocks.now.props blocks.now.vars blocks.now.moves state.now }
    ensures { Builds blocks.now.table.now blocks.now.marks.now blocks.now.props blocks.now.vars blocks.now.moves state.now layers.old layers.new result }
{
    let props = blocks.props;
    let vars = blocks.vars;
    let front = props + blocks.moves;
    if layers.len() < front + vars {
        return Err(Reason::MemoryTooShort.at(0));
    }
    let mut has = [false; 120];
    let mut row = [0; 32];
    state::load_truths(state, props, &mut has);
    state::load_signed(state, props, vars / 2, &mut row);
    layer_memory::copy_row(&row, &mut layers[front..], vars);
    layer_memory::clear(layers, front);
    layer_memory::note(layers, &has, props, 0);
    grow(blocks, Layer { has, row }, layers)
}

// The checks before any layer: the table's, then the state's. If both pass, `marks` holds the offsets of the table's blocks;
// after a refusal nothing is said of `marks`.
pub fn prepare(table: &[u8], state: &[u8], marks: &mut [usize; 66]) -> Result<Head, Refusal>
    ensures { IsPrepared table.now state.now marks.new result }
{
    let head = table::outline(table, Wanted::Normal, marks)?;
    state::check(state, head.props as usize, head.vars as usize / 2)?;
    Ok(head)
}

// "Decide answers layer or "no plan" with the reported layers"; these are at most (A + N + 1) × (N + 1).
pub fn decide(table: &[u8], state: &[u8], layers: &mut [i64]) -> Result<DecideAnswer, Refusal>
    ensures { (result ≡ decide_answer paper table.now state.now layers.old) × (layers.new ≡ decide_memory paper table.now state.now layers.old) × LayersWithin table.now (decide_layers result) }
{
    let mut marks = [0; 66];
    let head = prepare(table, state, &mut marks)?;
    let blocks = Blocks::new(table, &marks, head);
    match build(&blocks, state, layers)? {
        Built::Reached { layer } => Ok(DecideAnswer::Plan {
            layer,
            layers: layer,
        }),
        Built::Exhausted { layers } => Ok(DecideAnswer::NoPlan { layers }),
    }
}
