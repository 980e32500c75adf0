// The text of the listing program (document 01, "Trial campaigns"), written into a lent buffer: the lines of a plan, and the
// whole text of an answer.
#![tactic(auto)]

ghost use Rattle.std.specs.Prelude.{List, ◌+◌, ◌*◌, ◌^◌, ◌<◌, ◌≤◌, length};
ghost use Rattle.model.specs.Listing.{refusal_text, records_text, answer_text};
ghost use Rattle.model.specs.Plan.{Record};
ghost use Rattle.output.specs.Writing.{Written};
ghost use Rattle.report.specs.Lines.{line_text, pair_text, plan_line, no_plan_text, record_line};
ghost use Rattle.report.specs.Records.{Planned, Listable};
ghost use Rattle.report.specs.Answer.{Printable, Lists, Printed};

use model::{PlanAnswer, Refusal};

// Writes a word and a number, and ends the line.
fn put_line(text: &mut [u8], at: usize, word: &[u8], n: u64) -> usize
    requires { at + length (line_text word.now n) < 2 ^ 63 }
    ensures { Written text.old at (line_text word.now n) text.new result }
{
    let mut next = output::put_bytes(text, at, word);
    next = output::put_decimal(text, next, n);
    output::put_bytes(text, next, b"\n")
}

// Writes a line of two words, a number behind each.
fn put_pair(text: &mut [u8], at: usize, first: &[u8], a: u64, second: &[u8], b: u64) -> usize
    requires { at + length (pair_text first.now a second.now b) < 2 ^ 63 }
    ensures { Written text.old at (pair_text first.now a second.now b) text.new result }
{
    let mut next = output::put_bytes(text, at, first);
    next = output::put_decimal(text, next, a);
    put_line(text, next, second, b)
}

// "refusal", the number, "place" and the place.
fn put_refusal(text: &mut [u8], at: usize, refusal: Refusal) -> usize
    requires { at < 2 ^ 62 }
    ensures { Written text.old at (refusal_text refusal) text.new result × (length (refusal_text refusal) ≤ 56) }
{
    put_pair(
        text,
        at,
        b"refusal ",
        refusal.number,
        b" place ",
        refusal.place,
    )
}

// "no plan layers" and the layers.
fn put_no_plan(text: &mut [u8], at: usize, layers: u64) -> usize
    requires { at < 2 ^ 62 }
    ensures { Written text.old at (no_plan_text layers) text.new result × (length (no_plan_text layers) ≤ 36) }
{
    put_line(text, at, b"no plan layers ", layers)
}

// The first line of a plan: its records and layers.
fn put_plan(text: &mut [u8], at: usize, records: u64, layers: u64) -> usize
    requires { at < 2 ^ 62 }
    ensures { Written text.old at (plan_line records layers) text.new result × (length (plan_line records layers) ≤ 54) }
{
    put_pair(text, at, b"plan ", records, b" layers ", layers)
}

// The line of a record: its move and count.
fn put_record(text: &mut [u8], at: usize, chosen: u64, count: u64) -> usize
    requires { (chosen < 256) × (at < 2 ^ 62) }
    ensures { Written text.old at (record_line chosen count) text.new result }
{
    put_pair(text, at, b"", chosen, b" ", count)
}

// The lines of the first `n` records that stand in the bytes of a plan.
fn put_records(text: &mut [u8], at: usize, plan: &[u8], n: usize) -> usize
    requires { (Listable plan.now n) × (at + 25 * n < 2 ^ 62) }
    ensures { (rs : List Record) → Planned plan.now n rs → Written text.old at (records_text rs) text.new result }
{
    let mut next = at;
    for i in 0..n {
        let from = 10 * i;
        let chosen = plan[from + 1] as u64;
        let count = integer::unsigned_at(plan, from + 2, 8);
        next = put_record(text, next, chosen, count);
    }
    next
}

// The text of plan's answer, from the start of the buffer; the result is its length. The records are read from the plan's bytes.
pub fn listing_text(answer: Result<PlanAnswer, Refusal>, plan: &[u8], text: &mut [u8]) -> usize
    requires { Printable answer plan.now text.old }
    ensures { (rs : List Record) → Lists answer plan.now rs → Printed text.old (answer_text answer rs) text.new result }
{
    match answer {
        Ok(
            PlanAnswer::Plan {
                layers,
                records,
                ..
            },
        ) => {
            let next = put_plan(text, 0, records, layers);
            put_records(text, next, plan, records as usize)
        }
        Ok(PlanAnswer::NoPlan { layers, .. }) => put_no_plan(text, 0, layers),
        Err(r) => put_refusal(text, 0, r),
    }
}
