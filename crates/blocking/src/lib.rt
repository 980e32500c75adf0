// The goal part that blocks: where decide answers "no plan", the first part of the goal that the last layer does not meet (document 02,
// request 3).
#![tactic(auto)]

ghost use Rattle.std.specs.Prelude.{◌≡◌};
ghost use Rattle.model.specs.Limits.{paper};
ghost use Rattle.model.specs.Blocking.{blocking_answer, blocking_memory};
ghost use Rattle.model.specs.Theorems.Blocking.EndToEnd.{Reasoned};
ghost use Rattle.blocking.specs.Unmet.{Searchable, IsPart};

use layers::Built;
use model::Refusal;
use reader::Blocks;

// "the offset, in the normal table, of the first 50 or 43 command of the goal": the first that stored layer `t` does not meet.
fn part_offset(blocks: &Blocks, layers: &[i64], t: usize) -> u64
    requires { Searchable blocks.now.table.now blocks.now.marks.now layers.now blocks.now.props blocks.now.vars blocks.now.moves t }
    ensures { IsPart blocks.now.table.now blocks.now.marks.now layers.now blocks.now.props blocks.now.vars blocks.now.moves t result }
{
    let Blocks {
        props,
        vars,
        moves,
        ..
    } = *blocks;
    let mut has = [false; 120];
    let mut row = [0; 32];
    stored_layer::read_entries(layers, 0, props, t, &mut has);
    stored_layer::read_row(layers, props + moves + vars * t, vars, &mut row);
    let offset = blocks.marks[moves] + block::unmet(blocks.part(moves), &has, &row);
    offset as u64
}

// "Refusals and layer memory are those of decide."; an offset "is the true reason".
pub fn blocking(table: &[u8], state: &[u8], layers: &mut [i64]) -> Result<Option<u64>, Refusal>
    ensures { (result ≡ blocking_answer paper table.now state.now layers.old)
        × (layers.new ≡ blocking_memory paper table.now state.now layers.old)
        × Reasoned table.now state.now result }
{
    let mut marks = [0; 66];
    let head = layers::prepare(table, state, &mut marks)?;
    let blocks = Blocks::new(table, &marks, head);
    match layers::build(&blocks, state, layers)? {
        Built::Reached { .. } => Ok(None),
        Built::Exhausted { layers: last } => {
            let t = last as usize;
            let offset = part_offset(&blocks, layers, t);
            Ok(Some(offset))
        }
    }
}
