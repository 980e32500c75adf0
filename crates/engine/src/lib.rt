// The engine for its hosts: exported calls, each answered by one 64-bit number (crates/model/specs/Exports.antt; those of closure days and of the
// checker in crates/placement/specs/Exports.antt and crates/schedule/specs/Exports.antt).
#![tactic(auto)]

ghost use Rattle.std.specs.Prelude.{◌≡◌};
ghost use Rattle.model.specs.Exports.{read_code, write_code, decide_code, plan_code, plan_record_count, plan_first_moves, blocking_code, block_answer, block_copy};
ghost use Rattle.model.specs.Limits.{paper};
ghost use Rattle.model.specs.Calls.{read_answer, plan_answer, plan_memory, plan_out, step_answer, step_out, normalise_answer, normalise_out, decide_answer, decide_memory, block_part, block_refusal, campaign_decision, campaign_plan, campaign_memory, campaign_out};
ghost use Rattle.model.specs.Blocking.{blocking_answer, blocking_memory};
ghost use Rattle.model.specs.Pddl.{pddl_answer, pddl_out};
ghost use Rattle.model.specs.Rewrite.{rewrite_answer, rewrite_out};
ghost use Rattle.model.specs.Theorems.Campaigns.OneCall.{Promise};
ghost use Rattle.placement.specs.Day.{paper_day};
ghost use Rattle.placement.specs.Placing.{place_answer, place_out};
ghost use Rattle.schedule.specs.Check.{check_answer, check_out};
ghost use Rattle.schedule.specs.Exports.{check_code, check_index};
ghost use Rattle.placement.specs.Exports.{place_code, place_length, place_place};
ghost use Rattle.ceiling.specs.Ceiling.{rig, read_answer_under, block_part_under, block_refusal_under, normalise_answer_under, normalise_out_under, step_answer_under, step_out_under, decide_answer_under, decide_memory_under, plan_answer_under, plan_memory_under, plan_out_under, campaign_decision_under, campaign_plan_under, campaign_memory_under, campaign_out_under};
ghost use Rattle.ceiling.specs.Theorems.EndToEnd.{PromiseUnder};

#[unsafe(no_mangle)]
pub extern "C" fn lapyndo_read(table: &[u8]) -> u64
    ensures { result ≡ read_code (read_answer paper table.now) }
{
    codes::read_code(table::read(table))
}

// The block reader, for tests: the part's length; as much of the part as fits is copied to `out`.
#[unsafe(no_mangle)]
pub extern "C" fn lapyndo_block(table: &[u8], block: u64, out: &mut [u8]) -> u64
    ensures { (result ≡ write_code (block_answer (block_part paper table.now block) (block_refusal paper table.now block)))
        × (out.new ≡ block_copy (block_part paper table.now block) out.old) }
{
    let mut number: u64 = 0;
    let mut place: u64 = 0;
    let part = reader::block_at(table, block, &mut number, &mut place);
    integer::copy(part, out);
    codes::part_code(part.len() as u64, number, place)
}

#[unsafe(no_mangle)]
pub extern "C" fn lapyndo_normalise(table: &[u8], out: &mut [u8]) -> u64
    ensures { (result ≡ write_code (normalise_answer paper table.now out.old))
        × (out.new ≡ normalise_out paper table.now out.old) }
{
    codes::write_code(normal::normalise(table, out))
}

#[unsafe(no_mangle)]
pub extern "C" fn lapyndo_step(table: &[u8], state: &[u8], chosen: u64, out: &mut [u8]) -> u64
    ensures { (result ≡ write_code (step_answer paper table.now state.now chosen out.old))
        × (out.new ≡ step_out paper table.now state.now chosen out.old) }
{
    codes::write_code(transition::step(table, state, chosen, out))
}

// A written table and a state as PDDL 2.1 text.
#[unsafe(no_mangle)]
pub extern "C" fn lapyndo_pddl(table: &[u8], state: &[u8], out: &mut [u8]) -> u64
    ensures { (result ≡ write_code (pddl_answer paper table.now state.now out.old))
        × (out.new ≡ pddl_out paper table.now state.now out.old) }
{
    codes::write_code(pddl::pddl(table, state, out))
}

// A stored table without the moves that do nothing.
#[unsafe(no_mangle)]
pub extern "C" fn lapyndo_rewrite(table: &[u8], out: &mut [u8]) -> u64
    ensures { (result ≡ write_code (rewrite_answer paper table.now out.old))
        × (out.new ≡ rewrite_out paper table.now out.old) }
{
    codes::write_code(rewrite::rewrite(table, out))
}

// Decide, for tests.
#[unsafe(no_mangle)]
pub extern "C" fn lapyndo_decide(table: &[u8], state: &[u8], layers: &mut [i64]) -> u64
    ensures { (result ≡ decide_code (decide_answer paper table.now state.now layers.old))
        × (layers.new ≡ decide_memory paper table.now state.now layers.old) }
{
    codes::decide_code(layers::decide(table, state, layers))
}

// The goal part that blocks.
#[unsafe(no_mangle)]
pub extern "C" fn lapyndo_blocking(table: &[u8], state: &[u8], layers: &mut [i64]) -> u64
    ensures { (result ≡ blocking_code (blocking_answer paper table.now state.now layers.old))
        × (layers.new ≡ blocking_memory paper table.now state.now layers.old) }
{
    codes::blocking_code(blocking::blocking(table, state, layers))
}

// Plan, for tests. The number of records and the helpful moves are written in an answer only.
#[unsafe(no_mangle)]
pub extern "C" fn lapyndo_plan(
    table: &[u8],
    state: &[u8],
    layers: &mut [i64],
    out: &mut [u8],
    records: &mut u64,
    first: &mut u64,
) -> u64
    ensures { (result ≡ plan_code (plan_answer paper table.now state.now layers.old out.old))
        × (layers.new ≡ plan_memory paper table.now state.now layers.old)
        × (out.new ≡ plan_out paper table.now state.now layers.old out.old)
        × (records.new ≡ plan_record_count (plan_answer paper table.now state.now layers.old out.old) records.old)
        × (first.new ≡ plan_first_moves (plan_answer paper table.now state.now layers.old out.old) first.old) }
{
    codes::plan_code(
        relaxed_plan::plan(table, state, layers, out),
        records,
        first,
    )
}

// Normalise, decide and plan in one call, with demand 3 of what is answered: a written table is normalised into `normal`, and
// decide and plan run on exactly those bytes. The result is plan's answer; `decision` gets decide's, always; the number of
// records and the helpful moves are written in an answer only.
#[unsafe(no_mangle)]
pub extern "C" fn lapyndo_campaign(
    table: &[u8],
    state: &[u8],
    normal: &mut [u8],
    layers: &mut [i64],
    out: &mut [u8],
    decision: &mut u64,
    records: &mut u64,
    first: &mut u64,
) -> u64
    ensures { (result ≡ plan_code (campaign_plan paper table.now state.now normal.old layers.old out.old))
        × (decision.new ≡ decide_code (campaign_decision paper table.now state.now normal.old layers.old))
        × (records.new ≡ plan_record_count (campaign_plan paper table.now state.now normal.old layers.old out.old) records.old)
        × (first.new ≡ plan_first_moves (campaign_plan paper table.now state.now normal.old layers.old out.old) first.old)
        × (normal.new ≡ normalise_out paper table.now normal.old)
        × (layers.new ≡ campaign_memory paper table.now state.now normal.old layers.old)
        × (out.new ≡ campaign_out paper table.now state.now normal.old layers.old out.old)
        × Promise table.now state.now normal.old layers.old out.old
        (campaign_decision paper table.now state.now normal.old layers.old)
        (campaign_plan paper table.now state.now normal.old layers.old out.old) out.new }
{
    let answers = campaign::campaign(table, state, normal, layers, out);
    let decided = answers.decision;
    *decision = codes::decide_code(decided);
    let planned = answers.plan;
    codes::plan_code(planned, records, first)
}

// Closure hours: places a list in the windows of a closure day. The result is the end minute; the length of the starts is written in an
// answer only, and the place of a refusal in a refusal only.
#[unsafe(no_mangle)]
pub extern "C" fn lapyndo_place(
    windows: &[u8],
    durations: &[u8],
    out: &mut [u8],
    length: &mut u64,
    place: &mut u64,
) -> u64
    ensures { (result ≡ place_code (place_answer paper_day windows.now durations.now out.old))
        × (out.new ≡ place_out paper_day windows.now durations.now out.old)
        × (length.new ≡ place_length (place_answer paper_day windows.now durations.now out.old) length.old)
        × (place.new ≡ place_place (place_answer paper_day windows.now durations.now out.old) place.old) }
{
    codes::place_code(closure::place(windows, durations, out), length, place)
}

// Checks a bought list of moves. The result is the length of the end state, or bit 31 and below it 0 ("goal not met") or the number of the
// fault of the first entry that cannot be made, whose index is written then only.
#[unsafe(no_mangle)]
pub extern "C" fn lapyndo_check(
    table: &[u8],
    state: &[u8],
    list: &[u8],
    out: &mut [u8],
    index: &mut u64,
) -> u64
    ensures { (result ≡ check_code (check_answer paper table.now state.now list.now out.old))
        × (out.new ≡ check_out paper table.now state.now list.now out.old)
        × (index.new ≡ check_index (check_answer paper table.now state.now list.now out.old) index.old) }
{
    codes::check_code(checker::check(table, state, list, out), index)
}

// ---- The rig's calls: the same under its ceiling, "16 moves, 8 written variables and 2,048 numbers of layer memory". A block's copy, the
// number of records and the helpful moves are written as in the full calls; `lapyndo_rig_campaign` has demand 3 of what is answered.

#[unsafe(no_mangle)]
pub extern "C" fn lapyndo_rig_read(table: &[u8]) -> u64
    ensures { result ≡ read_code (read_answer_under rig paper table.now) }
{
    codes::read_code(rig::read(ceiling::board(), table))
}

#[unsafe(no_mangle)]
pub extern "C" fn lapyndo_rig_block(table: &[u8], block: u64, out: &mut [u8]) -> u64
    ensures { (result ≡ write_code (block_answer (block_part_under rig paper table.now block) (block_refusal_under rig paper table.now block)))
        × (out.new ≡ block_copy (block_part_under rig paper table.now block) out.old) }
{
    let mut number: u64 = 0;
    let mut place: u64 = 0;
    let part = rig::block_at(ceiling::board(), table, block, &mut number, &mut place);
    integer::copy(part, out);
    codes::part_code(part.len() as u64, number, place)
}

#[unsafe(no_mangle)]
pub extern "C" fn lapyndo_rig_normalise(table: &[u8], out: &mut [u8]) -> u64
    ensures { (result ≡ write_code (normalise_answer_under rig paper table.now out.old))
        × (out.new ≡ normalise_out_under rig paper table.now out.old) }
{
    codes::write_code(rig::normalise(ceiling::board(), table, out))
}

#[unsafe(no_mangle)]
pub extern "C" fn lapyndo_rig_step(table: &[u8], state: &[u8], chosen: u64, out: &mut [u8]) -> u64
    ensures { (result ≡ write_code (step_answer_under rig paper table.now state.now chosen out.old))
        × (out.new ≡ step_out_under rig paper table.now state.now chosen out.old) }
{
    codes::write_code(rig::step(ceiling::board(), table, state, chosen, out))
}

#[unsafe(no_mangle)]
pub extern "C" fn lapyndo_rig_decide(table: &[u8], state: &[u8], layers: &mut [i64]) -> u64
    ensures { (result ≡ decide_code (decide_answer_under rig paper table.now state.now layers.old))
        × (layers.new ≡ decide_memory_under rig paper table.now state.now layers.old) }
{
    codes::decide_code(rig::decide(ceiling::board(), table, state, layers))
}

#[unsafe(no_mangle)]
pub extern "C" fn lapyndo_rig_plan(
    table: &[u8],
    state: &[u8],
    layers: &mut [i64],
    out: &mut [u8],
    records: &mut u64,
    first: &mut u64,
) -> u64
    ensures { (result ≡ plan_code (plan_answer_under rig paper table.now state.now layers.old out.old))
        × (layers.new ≡ plan_memory_under rig paper table.now state.now layers.old)
        × (out.new ≡ plan_out_under rig paper table.now state.now layers.old out.old)
        × (records.new ≡ plan_record_count (plan_answer_under rig paper table.now state.now layers.old out.old) records.old)
        × (first.new ≡ plan_first_moves (plan_answer_under rig paper table.now state.now layers.old out.old) first.old) }
{
    codes::plan_code(
        rig::plan(ceiling::board(), table, state, layers, out),
        records,
        first,
    )
}

#[unsafe(no_mangle)]
pub extern "C" fn lapyndo_rig_campaign(
    table: &[u8],
    state: &[u8],
    normal: &mut [u8],
    layers: &mut [i64],
    out: &mut [u8],
    decision: &mut u64,
    records: &mut u64,
    first: &mut u64,
) -> u64
    ensures { (result ≡ plan_code (campaign_plan_under rig paper table.now state.now normal.old layers.old out.old))
        × (decision.new ≡ decide_code (campaign_decision_under rig paper table.now state.now normal.old layers.old))
        × (records.new ≡ plan_record_count (campaign_plan_under rig paper table.now state.now normal.old layers.old out.old) records.old)
        × (first.new ≡ plan_first_moves (campaign_plan_under rig paper table.now state.now normal.old layers.old out.old) first.old)
        × (normal.new ≡ normalise_out_under rig paper table.now normal.old)
        × (layers.new ≡ campaign_memory_under rig paper table.now state.now normal.old layers.old)
        × (out.new ≡ campaign_out_under rig paper table.now state.now normal.old layers.old out.old)
        × PromiseUnder rig table.now state.now normal.old layers.old out.old
        (campaign_decision_under rig paper table.now state.now normal.old layers.old)
        (campaign_plan_under rig paper table.now state.now normal.old layers.old out.old) out.new }
{
    let answers = rig::rig_campaign(ceiling::board(), table, state, normal, layers, out);
    let answer = answers.decision;
    *decision = codes::decide_code(answer);
    let planned = answers.plan;
    codes::plan_code(planned, records, first)
}
