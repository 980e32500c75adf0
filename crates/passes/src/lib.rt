// The two passes from the answer layer down: the records counted and kept, with the helpful moves, and written (document 01, "Plan").
#![tactic(auto)]

ghost use Rattle.std.specs.Prelude.{◌≡◌, length};
ghost use Rattle.model.specs.Calls.{record_bytes};
ghost use Rattle.integer.specs.Store.{put};
ghost use Rattle.records.specs.Records.{kept_bytes};
ghost use Rattle.passes.specs.Passes.{Begun, Surveyed, Writable, plan_records};
ghost use Rattle.passes.specs.Keeping.{KeptWhole};

use reader::Blocks;
use records::RECORD_LEN;
use targets::Targets;

// The number of records and the set of helpful moves.
#[derive(Clone, Copy)]
pub struct Summary {
    pub records: usize,
    pub helpful: u64,
}

// "From answer layer m down", whose wants are given: the number of records and the helpful moves, before a byte is written.
// If there are `KEPT` records at most, they stand at the end of `kept`.
pub fn survey(
    mut wants: Targets,
    blocks: &Blocks,
    layers: &[i64],
    start: &[i64],
    m: usize,
    kept: &mut [u8],
) -> Summary
    requires { (Begun blocks.now.table.now blocks.now.marks.now layers.now start.now blocks.now.props blocks.now.vars blocks.now.moves m wants) × (kept_bytes ≡ length kept.old) }
    ensures { (x : Begun blocks.now.table.now blocks.now.marks.now layers.now start.now blocks.now.props blocks.now.vars blocks.now.moves m wants) → (Surveyed x.stored result.records result.helpful) × KeptWhole x.stored result.records kept.new }
{
    let mut counts = taking::no_counts();
    let mut records = 0;
    let mut helpful = 0;
    for t in (1..=m).rev() {
        if t == 1 {
            helpful = helpful::helpful_moves(wants, blocks, layers);
        }
        wants = descent::descend(wants, blocks, layers, start, t, &mut counts);
        records += records::count_taken(&counts, blocks.moves);
        records::keep_records(kept, records, &counts, blocks.moves);
    }
    Summary { records, helpful }
}

// The records of a plan of more than `KEPT` records, from the last layer's backwards, again from the wants of the answer layer; the output has room
// for all of them.
pub fn write_plan(
    mut wants: Targets,
    blocks: &Blocks,
    layers: &[i64],
    start: &[i64],
    m: usize,
    records: usize,
    out: &mut [u8],
)
    requires { Writable blocks.now.table.now blocks.now.marks.now layers.now start.now blocks.now.props blocks.now.vars blocks.now.moves m wants records out.old }
    ensures { (x : Writable blocks.now.table.now blocks.now.marks.now layers.now start.now blocks.now.props blocks.now.vars blocks.now.moves m wants records out.old)
        → out.new ≡ put out.old 0 (record_bytes (plan_records x.begun.stored)) }
{
    let mut counts = taking::no_counts();
    let mut at = RECORD_LEN * records;
    for t in (1..=m).rev() {
        wants = descent::descend(wants, blocks, layers, start, t, &mut counts);
        at -= RECORD_LEN * records::count_taken(&counts, blocks.moves);
        records::write_records(out, at, &counts, blocks.moves);
    }
}
