// The plan of a table and a state: the layers are built, then the records are made from the answer layer down (document 01, "Plan").
#![tactic(auto)]

ghost use Rattle.std.specs.Prelude.{◌≡◌};
ghost use Rattle.model.specs.Limits.{paper};
ghost use Rattle.model.specs.Calls.{plan_answer, plan_memory, plan_out};
ghost use Rattle.model.specs.Theorems.Campaigns.Demand3.{plan_layers};
ghost use Rattle.model.specs.Theorems.Campaigns.EndToEnd.{LayersWithin};
ghost use Rattle.descent.specs.Layers.{Stored};
ghost use Rattle.relaxed_plan.specs.Answer.{Extracted};

use layers::Built;
use model::{PlanAnswer, Reason, Refusal};
use reader::Blocks;
use records::{KEPT, KEPT_LEN, RECORD_LEN};

// The plan of a stored answer layer `m`: "13 | output shorter than the result" is known before a byte is written. Records that were
// kept are copied; if there are more, all are worked out again.
fn extract(blocks: &Blocks, layers: &[i64], m: usize, out: &mut [u8]) -> Result<PlanAnswer, Refusal>
    requires { Stored blocks.now.table.now blocks.now.marks.now layers.now blocks.now.props blocks.now.vars blocks.now.moves m }
    ensures { (x : Stored blocks.now.table.now blocks.now.marks.now layers.now blocks.now.props blocks.now.vars blocks.now.moves m)
        → Extracted x.task x.start m out.old out.new result }
{
    let mut start = [0; 32];
    stored_layer::read_row(layers, blocks.props + blocks.moves, blocks.vars, &mut start);
    let wants = descent::want_goal(blocks, layers, &start, m);
    let mut kept = [0; KEPT_LEN];
    let summary = passes::survey(wants, blocks, layers, &start, m, &mut kept);
    let records = summary.records;
    if out.len() < RECORD_LEN * records {
        return Err(Reason::OutputTooShort.at(0));
    }
    if records <= KEPT {
        integer::copy(&kept[KEPT_LEN - RECORD_LEN * records..], out);
    } else {
        passes::write_plan(wants, blocks, layers, &start, m, records, out);
    }
    Ok(PlanAnswer::Plan {
        layer: m as u64,
        layers: m as u64,
        records: records as u64,
        first_moves: summary.helpful,
    })
}

// "plan adds the number of records and the first moves", which are the helpful ones (document 02, request 6). The reported layers
// are at most (A + N + 1) × (N + 1).
pub fn plan(
    table: &[u8],
    state: &[u8],
    layers: &mut [i64],
    out: &mut [u8],
) -> Result<PlanAnswer, Refusal>
    ensures { (result ≡ plan_answer paper table.now state.now layers.old out.old)
        × (layers.new ≡ plan_memory paper table.now state.now layers.old)
        × (out.new ≡ plan_out paper table.now state.now layers.old out.old)
        × LayersWithin table.now (plan_layers result) }
{
    let mut marks = [0; 66];
    let head = layers::prepare(table, state, &mut marks)?;
    let blocks = Blocks::new(table, &marks, head);
    match layers::build(&blocks, state, layers)? {
        Built::Reached { layer } => extract(&blocks, layers, layer as usize, out),
        Built::Exhausted { layers: last } => Ok(PlanAnswer::NoPlan {
            layers: last,
            records: 0,
            first_moves: 0,
        }),
    }
}
