// The conditions and the effects of a block as PDDL text (document 02, request 1), each on a line of its own. Every function returns
// the offset behind what it writes, and writes only what fits (crate `output`).
#![tactic(auto)]

ghost use Rattle.std.specs.Prelude.{ℕ, List, ◌++◌, ◌^◌, ◌<◌, ◌≤◌, T};
ghost use Rattle.model.specs.Ascii.{ascii};
ghost use Rattle.model.specs.Seen.{comparison_of, kind_of};
ghost use Rattle.model.specs.Task.{written, Block};
ghost use Rattle.model.specs.Limits.{comparison_in_range};
ghost use Rattle.model.specs.Pddl.{comparison_text, kind_text};
ghost use Rattle.block.specs.Remaining.{items_of, Writable, ConditionWritable, EffectWritable, Remaining};
ghost use Rattle.output.specs.Writing.{Written, Room};
ghost use Rattle.pddl_block.specs.Rows.{condition_rows, effect_rows};
ghost use Rattle.pddl_block.specs.Items.{condition_text, effect_text};
ghost use Rattle.pddl_block.specs.Walking.{Printable, Puts, ItemsPrintable};

use block::{ItemAt, Terms};

// The operator of a comparison, with the bracket before it and the space behind.
fn put_comparison(comparison: u8, out: &mut [u8], at: usize) -> usize
    requires { T (comparison_in_range written comparison) × (at < 2 ^ 62) }
    ensures { Written out.old at (ascii "(" ++ comparison_text (comparison_of comparison)) out.new result }
{
    match comparison {
        0 => output::put_bytes(out, at, b"(>= "),
        1 => output::put_bytes(out, at, b"(> "),
        2 => output::put_bytes(out, at, b"(<= "),
        3 => output::put_bytes(out, at, b"(< "),
        _ => output::put_bytes(out, at, b"(= "),
    }
}

// A condition: its sum against its constant.
fn put_condition(comparison: u8, bound: i64, terms: &Terms, out: &mut [u8], at: usize) -> usize
    requires { (ConditionWritable terms.now.part.now comparison bound terms.now.from terms.now.count)
        × Room at (condition_text terms.now.part.now comparison bound terms.now.from terms.now.count) }
    ensures { Written out.old at (condition_text terms.now.part.now comparison bound terms.now.from terms.now.count) out.new result }
{
    let sum = put_comparison(comparison, out, at);
    let space = pddl_sum::put_sum(terms, 0, out, sum);
    let number = output::put_byte(out, space, 0x20);
    let close = pddl_sum::put_number(bound, out, number);
    output::put_byte(out, close, 0x29)
}

// The operator of a numeric effect, with the bracket before it and the space behind.
fn put_kind(kind: u8, out: &mut [u8], at: usize) -> usize
    requires { (kind ≤ 2) × (at < 2 ^ 62) }
    ensures { Written out.old at (ascii "(" ++ kind_text (kind_of kind)) out.new result }
{
    match kind {
        0 => output::put_bytes(out, at, b"(assign "),
        1 => output::put_bytes(out, at, b"(increase "),
        _ => output::put_bytes(out, at, b"(decrease "),
    }
}

// A numeric effect: its variable and its sum, down to its constant.
fn put_effect(kind: u8, var: usize, base: i64, terms: &Terms, out: &mut [u8], at: usize) -> usize
    requires { (EffectWritable terms.now.part.now kind var base terms.now.from terms.now.count)
        × Room at (effect_text terms.now.part.now kind var base terms.now.from terms.now.count) }
    ensures { Written out.old at (effect_text terms.now.part.now kind var base terms.now.from terms.now.count) out.new result }
{
    let head = put_kind(kind, out, at);
    let space = pddl_sum::put_name(b"(v", var, out, head);
    let sum = output::put_byte(out, space, 0x20);
    let close = pddl_sum::put_sum(terms, base, out, sum);
    output::put_byte(out, close, 0x29)
}

// The line of an item that is a condition; nothing for an effect.
fn put_formula(part: &[u8], item: ItemAt, line: &[u8], out: &mut [u8], at: usize) -> usize
    requires { (Writable part.now item) × Room at (condition_rows line.now (items_of part.now item)) }
    ensures { Written out.old at (condition_rows line.now (items_of part.now item)) out.new result }
{
    match item {
        ItemAt::Need { prop, .. } => {
            let atom = output::put_bytes(out, at, line);
            pddl_sum::put_name(b"(p", prop, out, atom)
        }
        ItemAt::Condition {
            comparison,
            bound,
            from,
            terms: count,
            ..
        } => {
            let compare = output::put_bytes(out, at, line);
            let terms = Terms { part, from, count };
            put_condition(comparison, bound, &terms, out, compare)
        }
        _ => at,
    }
}

// The line of an item that is an effect; nothing for a condition.
fn put_change(part: &[u8], item: ItemAt, line: &[u8], out: &mut [u8], at: usize) -> usize
    requires { (Writable part.now item) × Room at (effect_rows line.now (items_of part.now item)) }
    ensures { Written out.old at (effect_rows line.now (items_of part.now item)) out.new result }
{
    match item {
        ItemAt::Add { prop, .. } => {
            let atom = output::put_bytes(out, at, line);
            pddl_sum::put_name(b"(p", prop, out, atom)
        }
        ItemAt::Delete { prop, .. } => {
            let not = output::put_bytes(out, at, line);
            let close = pddl_sum::put_name(b"(not (p", prop, out, not);
            output::put_byte(out, close, 0x29)
        }
        ItemAt::Effect {
            kind,
            var,
            base,
            from,
            terms: count,
            ..
        } => {
            let change = output::put_bytes(out, at, line);
            let terms = Terms { part, from, count };
            put_effect(kind, var, base, &terms, out, change)
        }
        _ => at,
    }
}

// The items of a block in their order, each as `put` writes it: nothing, or a line.
fn put_items<F: Fn(ItemAt, &mut [u8], usize) -> usize>(
    part: &[u8],
    put: F,
    out: &mut [u8],
    start: usize,
) -> usize
    requires { ItemsPrintable (F.pre put) (F.post put) part.now start }
    ensures { (text : Block → List ℕ) → Puts (F.post put) part.now text
        → (b : Block) → Remaining part.now 1 b → Written out.old start (text b) out.new result }
{
    let mut at = 1;
    let mut to = start;
    while at < part.len() {
        let item = block::next(part, at);
        to = put(item, out, to);
        at = block::behind(item);
    }
    to
}

// The conditions of a block in their order, each behind the bytes `line`.
pub fn put_conditions(part: &[u8], line: &[u8], out: &mut [u8], start: usize) -> usize
    requires { Printable (condition_rows line.now) part.now start }
    ensures { (b : Block) → Remaining part.now 1 b → Written out.old start (condition_rows line.now b) out.new result }
{
    put_items(
        part,
        |item, out, at| put_formula(part, item, line, out, at),
        out,
        start,
    )
}

// The effects of a block in their order, each behind the bytes `line`.
pub fn put_effects(part: &[u8], line: &[u8], out: &mut [u8], start: usize) -> usize
    requires { Printable (effect_rows line.now) part.now start }
    ensures { (b : Block) → Remaining part.now 1 b → Written out.old start (effect_rows line.now b) out.new result }
{
    put_items(
        part,
        |item, out, at| put_change(part, item, line, out, at),
        out,
        start,
    )
}
