// The normal form of a block of a written table (document 01, "Normal form"). Every function returns the offset behind what it
// writes, and writes only what fits (crate `output`).
#![tactic(auto)]

ghost use Rattle.std.specs.Prelude.{◌∷◌, ◌+◌, ◌^◌, ◌<◌, ◌≤◌, nat_abs};
ghost use Rattle.model.specs.Task.{Block};
ghost use Rattle.model.specs.Seen.{kind_of};
ghost use Rattle.output.specs.Writing.{Written};
ghost use Rattle.block.specs.Terms.{SumAt, terms_at};
ghost use Rattle.block.specs.Remaining.{Writable, Remaining};
ghost use Rattle.normal_block.specs.Effects.{effect_bytes, mirror_bytes, effect_print};
ghost use Rattle.normal_block.specs.Blocks.{print_of, Printable, block_print};

use block::{ItemAt, Terms};

// The normal effect on `var` with value S + c, or −S + c.
fn put_effect(
    terms: &Terms,
    negated: bool,
    kind: u8,
    var: usize,
    c: i64,
    out: &mut [u8],
    at: usize,
) -> usize
    requires { (SumAt terms.now.part.now terms.now.from terms.now.count) × (at < 2 ^ 61) × (var < 256) × (nat_abs c ≤ 1000001) }
    ensures { Written out.old at (effect_bytes negated kind var (terms_at terms.now.part.now terms.now.from terms.now.count) c) out.new result }
{
    let close = normal_condition::put_sum(terms, negated, out, at);
    let changed = output::put_pair(out, close, 0x46, kind);
    let base = output::put_byte(out, changed, var as u8);
    output::put_i32(out, base, c)
}

// "Each effect on v_i is written on 2i, then mirrored on 2i+1."
fn put_mirrored(
    terms: &Terms,
    negated: bool,
    kind: u8,
    var: usize,
    c: i64,
    out: &mut [u8],
    at: usize,
) -> usize
    requires { (SumAt terms.now.part.now terms.now.from terms.now.count) × (at ≤ 64000) × (var < 16) × (nat_abs c ≤ 1000000) }
    ensures { Written out.old at (mirror_bytes negated kind var (terms_at terms.now.part.now terms.now.from terms.now.count) c) out.new result }
{
    let next = put_effect(terms, negated, kind, 2 * var, c, out, at);
    put_effect(terms, !negated, kind, 2 * var + 1, -c, out, next)
}

// "v −= e is v += −e."
fn put_kind(terms: &Terms, kind: u8, var: usize, c: i64, out: &mut [u8], at: usize) -> usize
    requires { (SumAt terms.now.part.now terms.now.from terms.now.count) × (at ≤ 64000) × (kind ≤ 2) × (var < 16) × (nat_abs c ≤ 1000000) }
    ensures { Written out.old at (effect_print (kind_of kind) var (terms_at terms.now.part.now terms.now.from terms.now.count) c) out.new result }
{
    match kind {
        0 => put_mirrored(terms, false, 0, var, c, out, at),
        1 => put_mirrored(terms, false, 1, var, c, out, at),
        _ => put_mirrored(terms, true, 1, var, -c, out, at),
    }
}

// The normal form of an item.
fn put_item(part: &[u8], item: ItemAt, out: &mut [u8], at: usize) -> usize
    requires { (Writable part.now item) × (at ≤ 64000) }
    ensures { Written out.old at (print_of part.now item) out.new result }
{
    match item {
        ItemAt::Need { prop, .. } => output::put_pair(out, at, 0x50, prop as u8),
        ItemAt::Add { prop, .. } => output::put_pair(out, at, 0x2B, prop as u8),
        ItemAt::Delete { prop, .. } => output::put_pair(out, at, 0x2D, prop as u8),
        ItemAt::Condition {
            comparison,
            bound,
            from,
            terms: count,
            ..
        } => {
            let terms = Terms { part, from, count };
            normal_condition::put_comparison(&terms, comparison, bound, out, at)
        }
        ItemAt::Effect {
            kind,
            var,
            base,
            from,
            terms: count,
            ..
        } => {
            let terms = Terms { part, from, count };
            put_kind(&terms, kind, var, base, out, at)
        }
        ItemAt::End => at,
    }
}

// The normal form of a block's items.
fn put_items(part: &[u8], out: &mut [u8], start: usize) -> usize
    requires { Printable part.now start }
    ensures { (b : Block) → Remaining part.now 1 b → Written out.old start (block_print b) out.new result }
{
    let mut at = 1;
    let mut to = start;
    while at < part.len() {
        let item = block::next(part, at);
        at = block::behind(item);
        to = put_item(part, item, out, to);
    }
    to
}

// The normal form of a block, which the command `code` opens.
pub fn put_block(part: &[u8], code: u8, out: &mut [u8], at: usize) -> usize
    requires { Printable part.now (at + 1) }
    ensures { (b : Block) → Remaining part.now 1 b → Written out.old at (code ∷ block_print b) out.new result }
{
    let next = output::put_byte(out, at, code);
    put_items(part, out, next)
}
