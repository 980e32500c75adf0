// The normal form of sums and conditions (document 01, "Normal form"), a function an operator. Every function returns the offset behind
// what it writes, and writes only what fits (crate `output`).
#![tactic(auto)]

ghost use Rattle.std.specs.Prelude.{◌≡◌, [], ◌∷◌, ℕ, ◌^◌, ◌<◌, ◌≤◌, T, nat_abs};
ghost use Rattle.model.specs.Task.{written, at_least, above, at_most, below, equal};
ghost use Rattle.model.specs.Limits.{comparison_in_range};
ghost use Rattle.model.specs.Command.{items_bytes};
ghost use Rattle.model.specs.Seen.{comparison_of};
ghost use Rattle.model.specs.NormalForm.{signed_term, least, normal_condition};
ghost use Rattle.output.specs.Writing.{Written};
ghost use Rattle.block.specs.Items.{first_term};
ghost use Rattle.block.specs.Terms.{SumAt, terms_at};
ghost use Rattle.normal_condition.specs.Signs.{negate_if, negate_sum_if, kept_bytes, sum_bytes};

use block::Terms;

// The term of weight `weight` on variable `var`.
fn put_weight(out: &mut [u8], at: usize, var: usize, weight: i64) -> usize
    requires { (at < 2 ^ 62) × (var < 256) × (nat_abs weight ≤ 1000) }
    ensures { Written out.old at (first_term (record { var = var; weight = weight })) out.new result }
{
    let next = at + 4;
    if out.len() < next {
        return next;
    }
    out[at] = 0x57;
    out[at + 1] = var as u8;
    integer::put_i16(out, at + 2, weight);
    next
}

// The number, or its negation.
fn negate_if(negated: bool, z: i64) -> i64
    requires { nat_abs z < 2 ^ 63 }
    ensures { (result ≡ negate_if negated z) × (nat_abs result ≤ nat_abs z) }
{
    if negated { -z } else { z }
}

// "A weight w above 0 becomes w on 2i, below 0 becomes −w on 2i+1": the variable, and the weight.
fn signed_var(var: usize, weight: i64) -> usize
    requires { var < 128 }
    ensures { (result ≡ (signed_term (record { var = var; weight = weight })).var) × (result < 256) }
{
    if weight > 0 { 2 * var } else { 2 * var + 1 }
}

fn signed_weight(weight: i64) -> i64
    requires { nat_abs weight ≤ 1000 }
    ensures { ((var : ℕ) → result ≡ (signed_term (record { var = var; weight = weight })).weight) × (nat_abs result ≤ 1000) }
{
    if weight > 0 { weight } else { -weight }
}

// A term on its signed variable; of weight 0, "the normal form drops it".
fn put_kept(out: &mut [u8], at: usize, var: usize, weight: i64) -> usize
    requires { (at < 2 ^ 62) × (var < 128) × (nat_abs weight ≤ 1000) }
    ensures { Written out.old at (kept_bytes (record { var = var; weight = weight })) out.new result }
{
    if weight == 0 {
        return at;
    }
    put_weight(out, at, signed_var(var, weight), signed_weight(weight))
}

// The signed terms of the sum S of these terms, or of −S.
pub fn put_sum(terms: &Terms, negated: bool, out: &mut [u8], at: usize) -> usize
    requires { (SumAt terms.now.part.now terms.now.from terms.now.count) × (at < 2 ^ 61) }
    ensures { Written out.old at (sum_bytes negated (terms_at terms.now.part.now terms.now.from terms.now.count)) out.new result }
{
    let mut to = at;
    for i in 0..terms.count {
        let term = terms.from + 4 * i;
        let v = block::variable(terms.part, term);
        let w = negate_if(negated, block::weight(terms.part, term));
        to = put_kept(out, to, v, w);
    }
    to
}

// The normal condition S ≥ c, or −S ≥ c.
fn put_condition(terms: &Terms, negated: bool, c: i64, out: &mut [u8], at: usize) -> usize
    requires { (SumAt terms.now.part.now terms.now.from terms.now.count) × (at < 2 ^ 61) × (nat_abs c ≤ 1000001) }
    ensures { Written out.old at (items_bytes (least (negate_sum_if negated (terms_at terms.now.part.now terms.now.from terms.now.count)) c ∷ [])) out.new result }
{
    let close = put_sum(terms, negated, out, at);
    let bound = output::put_pair(out, close, 0x43, 0);
    output::put_i32(out, bound, c)
}

// "Sum S: ≥ c stays;"
fn put_at_least(terms: &Terms, c: i64, out: &mut [u8], at: usize) -> usize
    requires { (SumAt terms.now.part.now terms.now.from terms.now.count) × (at ≤ 64000) × (nat_abs c ≤ 1000000) }
    ensures { Written out.old at (items_bytes (normal_condition at_least (terms_at terms.now.part.now terms.now.from terms.now.count) c)) out.new result }
{
    put_condition(terms, false, c, out, at)
}

// "> c is S ≥ c+1;"
fn put_above(terms: &Terms, c: i64, out: &mut [u8], at: usize) -> usize
    requires { (SumAt terms.now.part.now terms.now.from terms.now.count) × (at ≤ 64000) × (nat_abs c ≤ 1000000) }
    ensures { Written out.old at (items_bytes (normal_condition above (terms_at terms.now.part.now terms.now.from terms.now.count) c)) out.new result }
{
    put_condition(terms, false, c + 1, out, at)
}

// "≤ c is −S ≥ −c;"
fn put_at_most(terms: &Terms, c: i64, out: &mut [u8], at: usize) -> usize
    requires { (SumAt terms.now.part.now terms.now.from terms.now.count) × (at ≤ 64000) × (nat_abs c ≤ 1000000) }
    ensures { Written out.old at (items_bytes (normal_condition at_most (terms_at terms.now.part.now terms.now.from terms.now.count) c)) out.new result }
{
    put_condition(terms, true, -c, out, at)
}

// "< c is −S ≥ 1−c;"
fn put_below(terms: &Terms, c: i64, out: &mut [u8], at: usize) -> usize
    requires { (SumAt terms.now.part.now terms.now.from terms.now.count) × (at ≤ 64000) × (nat_abs c ≤ 1000000) }
    ensures { Written out.old at (items_bytes (normal_condition below (terms_at terms.now.part.now terms.now.from terms.now.count) c)) out.new result }
{
    put_condition(terms, true, 1 - c, out, at)
}

// "= c is S ≥ c, then −S ≥ −c."
fn put_equal(terms: &Terms, c: i64, out: &mut [u8], at: usize) -> usize
    requires { (SumAt terms.now.part.now terms.now.from terms.now.count) × (at ≤ 64000) × (nat_abs c ≤ 1000000) }
    ensures { Written out.old at (items_bytes (normal_condition equal (terms_at terms.now.part.now terms.now.from terms.now.count) c)) out.new result }
{
    let next = put_condition(terms, false, c, out, at);
    put_condition(terms, true, -c, out, next)
}

// The normal conditions of a comparison, by its operator's number. Reading has refused every number but these five, so the last arm
// is never taken.
pub fn put_comparison(terms: &Terms, comparison: u8, c: i64, out: &mut [u8], at: usize) -> usize
    requires { (SumAt terms.now.part.now terms.now.from terms.now.count) × (at ≤ 64000) × (nat_abs c ≤ 1000000) × T (comparison_in_range written comparison) }
    ensures { Written out.old at (items_bytes (normal_condition (comparison_of comparison) (terms_at terms.now.part.now terms.now.from terms.now.count) c)) out.new result }
{
    match comparison {
        0 => put_at_least(terms, c, out, at),
        1 => put_above(terms, c, out, at),
        2 => put_at_most(terms, c, out, at),
        3 => put_below(terms, c, out, at),
        4 => put_equal(terms, c, out, at),
        _ => at,
    }
}
