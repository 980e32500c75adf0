// Normalise, decide and plan in one call. Its promise is demand 3 (specs/Campaign.antt).
#![tactic(auto)]

ghost use Rattle.std.specs.Prelude.{◌≡◌};
ghost use Rattle.model.specs.Limits.{paper};
ghost use Rattle.model.specs.Calls.{decide_answer, plan_answer, plan_memory, plan_out};
ghost use Rattle.campaign.specs.Campaign.{Done};

use model::{DecideAnswer, PlanAnswer, Refusal};

// Decide's and plan's answers.
#[derive(Clone, Copy)]
pub struct Answers {
    pub decision: Result<DecideAnswer, Refusal>,
    pub plan: Result<PlanAnswer, Refusal>,
}

// Decide, then plan, on one layer memory.
fn decided_and_planned(table: &[u8], state: &[u8], layers: &mut [i64], out: &mut [u8]) -> Answers
    ensures { (result.decision ≡ decide_answer paper table.now state.now layers.old)
        × (result.plan ≡ plan_answer paper table.now state.now layers.old out.old)
        × (layers.new ≡ plan_memory paper table.now state.now layers.old)
        × (out.new ≡ plan_out paper table.now state.now layers.old out.old) }
{
    let decision = layers::decide(table, state, layers);
    let plan = relaxed_plan::plan(table, state, layers, out);
    Answers { decision, plan }
}

// A written table is normalised into `normal`, and decide and plan run on exactly those bytes.
pub fn campaign(
    table: &[u8],
    state: &[u8],
    normal: &mut [u8],
    layers: &mut [i64],
    out: &mut [u8],
) -> Answers
    ensures { Done table.now state.now normal.old layers.old out.old
        normal.new layers.new out.new result.decision result.plan }
{
    match normal::normalise(table, normal) {
        Ok(n) => decided_and_planned(&normal[..n as usize], state, layers, out),
        Err(r) => Answers {
            decision: Err(r),
            plan: Err(r),
        },
    }
}
