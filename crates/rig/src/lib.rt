// The calls of document 01 under a ceiling (document 02, request 7), proved for every ceiling.
#![tactic(auto)]

ghost use Rattle.std.specs.Prelude.{◌≡◌};
ghost use Rattle.model.specs.Limits.{paper};
ghost use Rattle.model.specs.Calls.{refusal_number, refusal_place};
ghost use Rattle.ceiling.specs.Ceiling.{read_answer_under, block_part_under, block_start_under, block_refusal_under, normalise_answer_under, normalise_out_under, step_answer_under, step_out_under, decide_answer_under, decide_memory_under, plan_answer_under, plan_memory_under, plan_out_under};
ghost use Rattle.model.specs.Theorems.Campaigns.Demand3.{decide_layers, plan_layers};
ghost use Rattle.model.specs.Theorems.Campaigns.EndToEnd.{LayersWithin};
ghost use Rattle.table.specs.Names.{wanted_of};
ghost use Rattle.reader.specs.Parts.{LiesAt};
ghost use Rattle.ceiling.specs.Heads.{ceiling_of};
ghost use Rattle.rig.specs.Admission.{Admits};
ghost use Rattle.rig.specs.Campaign.{Done};

use campaign::Answers;
use ceiling::Ceiling;
use model::{DecideAnswer, Head, PlanAnswer, Reason, Refusal};
use table::Wanted;

// "17, a head beyond the rig's limits, place 0, checked just after the table is accepted". Only a table with such a head is read here. A table
// that is admitted goes on to the full call, which makes all its checks.
fn admit(c: Ceiling, table: &[u8], wanted: Wanted) -> Result<(), Refusal>
    ensures { Admits c (wanted_of wanted) table.now result }
{
    if !ceiling::beyond(c, table) {
        return Ok(());
    }
    let mut marks = [0; 66];
    match table::outline(table, wanted, &mut marks) {
        Ok(_) => Err(Reason::BeyondCeiling.at(0)),
        Err(r) => Err(r),
    }
}

pub fn read(c: Ceiling, table: &[u8]) -> Result<Head, Refusal>
    ensures { result ≡ read_answer_under (ceiling_of c) paper table.now }
{
    admit(c, table, Wanted::Both)?;
    table::read(table)
}

// The block reader; `number` and `place` are those of a refusal, or 0.
pub fn block_at<'a>(
    c: Ceiling,
    table: &'a [u8],
    b: u64,
    number: &mut u64,
    place: &mut u64,
) -> &'a [u8]
    ensures { (result.now ≡ block_part_under (ceiling_of c) paper table.now b)
        × (number.new ≡ refusal_number (block_refusal_under (ceiling_of c) paper table.now b))
        × (place.new ≡ refusal_place (block_refusal_under (ceiling_of c) paper table.now b))
        × LiesAt table.entry (block_start_under (ceiling_of c) paper table.now b) result }
{
    match admit(c, table, Wanted::Both) {
        Ok(()) => reader::block_at(table, b, number, place),
        Err(r) => {
            *number = r.number;
            *place = r.place;
            &table[0..0]
        }
    }
}

pub fn normalise(c: Ceiling, table: &[u8], out: &mut [u8]) -> Result<u64, Refusal>
    ensures { (result ≡ normalise_answer_under (ceiling_of c) paper table.now out.old)
        × (out.new ≡ normalise_out_under (ceiling_of c) paper table.now out.old) }
{
    admit(c, table, Wanted::Written)?;
    normal::normalise(table, out)
}

pub fn step(
    c: Ceiling,
    table: &[u8],
    state: &[u8],
    chosen: u64,
    out: &mut [u8],
) -> Result<u64, Refusal>
    ensures { (result ≡ step_answer_under (ceiling_of c) paper table.now state.now chosen out.old)
        × (out.new ≡ step_out_under (ceiling_of c) paper table.now state.now chosen out.old) }
{
    admit(c, table, Wanted::Written)?;
    transition::step(table, state, chosen, out)
}

// Decide on the numbers that the ceiling leaves; those behind them are kept.
pub fn decide(
    c: Ceiling,
    table: &[u8],
    state: &[u8],
    layers: &mut [i64],
) -> Result<DecideAnswer, Refusal>
    ensures { (result ≡ decide_answer_under (ceiling_of c) paper table.now state.now layers.old)
        × (layers.new ≡ decide_memory_under (ceiling_of c) paper table.now state.now layers.old)
        × LayersWithin table.now (decide_layers result) }
{
    admit(c, table, Wanted::Normal)?;
    let n = ceiling::used(c, layers.len());
    layers::decide(table, state, &mut layers[..n])
}

pub fn plan(
    c: Ceiling,
    table: &[u8],
    state: &[u8],
    layers: &mut [i64],
    out: &mut [u8],
) -> Result<PlanAnswer, Refusal>
    ensures { (result ≡ plan_answer_under (ceiling_of c) paper table.now state.now layers.old out.old)
        × (layers.new ≡ plan_memory_under (ceiling_of c) paper table.now state.now layers.old)
        × (out.new ≡ plan_out_under (ceiling_of c) paper table.now state.now layers.old out.old)
        × LayersWithin table.now (plan_layers result) }
{
    admit(c, table, Wanted::Normal)?;
    let n = ceiling::used(c, layers.len());
    relaxed_plan::plan(table, state, &mut layers[..n], out)
}

// Normalise, decide and plan in one call. Its promise is demand 3 (specs/Campaign.antt).
pub fn rig_campaign(
    c: Ceiling,
    table: &[u8],
    state: &[u8],
    normal: &mut [u8],
    layers: &mut [i64],
    out: &mut [u8],
) -> Answers
    ensures { Done c table.now state.now normal.old layers.old out.old
        normal.new layers.new out.new result.decision result.plan }
{
    match admit(c, table, Wanted::Written) {
        Ok(()) => {
            let n = ceiling::used(c, layers.len());
            campaign::campaign(table, state, normal, &mut layers[..n], out)
        }
        Err(r) => Answers {
            decision: Err(r),
            plan: Err(r),
        },
    }
}
