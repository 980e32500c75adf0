// The items of one block, read from its part of an accepted table; sums, conditions and effects over a state and over a layer.
// A part is the byte 41 or 47 and the bytes of the block's items. `specs/Items.antt` says what is left from an offset on: each
// promise holds for every reading of the part that the caller has.
#![tactic(auto)]

ghost use Rattle.std.specs.Prelude.{◌≡◌, ◌+◌, ◌*◌, ◌<◌, ◌≤◌, length, nat_abs};
ghost use Rattle.model.specs.Limits.{largest_value};
ghost use Rattle.model.specs.Task.{Block, Comparison};
ghost use Rattle.model.specs.Command.{comparison_code};
ghost use Rattle.model.specs.Move.{compares};
ghost use Rattle.model.specs.Layer.{Value, reaches};
ghost use Rattle.model.specs.Memory.{encode};
ghost use Rattle.block.specs.Items.{Ranges, Left, Readable, behind, Next, Moves, Found, TermAt, IsVariable, IsWeight, IsScaled};
ghost use Rattle.block.specs.Closing.{Closed, Closable};
ghost use Rattle.block.specs.Sums.{Summable, IsSum, LayerSummable, IsLayerSum, IsLayerValue, is_mark};
ghost use Rattle.block.specs.Blocks.{Testable, IsApplicable, LayerTestable, IsLayerTest, IsUsable};
ghost use Rattle.block.specs.Unmet.{IsUnmet};
ghost use Rattle.block.specs.Streams.{Addable, SumAt, width_by, Judged, Judgement};

// The mark for unbounded in a layer.
pub const UNBOUNDED: i64 = i64::MAX;

// The terms of one sum: `count` of them, which stand in the part of their block from offset `from` on.
#[derive(Clone, Copy)]
pub struct Terms<'a> {
    pub part: &'a [u8],
    pub from: usize,
    pub count: usize,
}

// One item, with the offset behind it. The terms of a condition's or an effect's sum stand from `from` on.
#[derive(Clone, Copy)]
pub enum ItemAt {
    Need {
        prop: usize,
        after: usize,
    },
    Add {
        prop: usize,
        after: usize,
    },
    Delete {
        prop: usize,
        after: usize,
    },
    Condition {
        comparison: u8,
        bound: i64,
        from: usize,
        terms: usize,
        after: usize,
    },
    Effect {
        kind: u8,
        var: usize,
        base: i64,
        from: usize,
        terms: usize,
        after: usize,
    },
    End,
}

// The number of terms from `at` on, before the command that closes them or has none.
fn terms_at(part: &[u8], at: usize) -> usize
    requires { (Readable part.now at) × (at < length part.now) }
    ensures { (k : Ranges) (rest : Block) → Left k part.now at rest → Closed k part.now at result rest }
{
    let mut n = 0;
    while part[at + 4 * n] == 0x57 {
        n += 1;
    }
    n
}

// The item whose `terms` terms stand from `from` on.
fn item_at(part: &[u8], from: usize, terms: usize) -> ItemAt
    requires { Closable part.now from terms }
    ensures { (Moves from (length part.now) result)
        × ((k : Ranges) (rest : Block) → Closed k part.now from terms rest → Found k part.now rest result) }
{
    let at = from + 4 * terms;
    match part[at] {
        0x50 => ItemAt::Need {
            prop: part[at + 1] as usize,
            after: at + 2,
        },
        0x2B => ItemAt::Add {
            prop: part[at + 1] as usize,
            after: at + 2,
        },
        0x2D => ItemAt::Delete {
            prop: part[at + 1] as usize,
            after: at + 2,
        },
        0x43 => ItemAt::Condition {
            comparison: part[at + 1],
            bound: integer::i32_at(part, at + 2),
            from,
            terms,
            after: at + 6,
        },
        _ => ItemAt::Effect {
            kind: part[at + 1],
            var: part[at + 2] as usize,
            base: integer::i32_at(part, at + 3),
            from,
            terms,
            after: at + 7,
        },
    }
}

// The item at `at`, or the block's end.
pub fn next(part: &[u8], at: usize) -> ItemAt
    requires { Readable part.now at }
    ensures { Next part.now at result }
{
    if at >= part.len() {
        return ItemAt::End;
    }
    item_at(part, at, terms_at(part, at))
}

// The offset behind an item; 0 behind the block's end.
#[tactic(auto, unfolding(crate::specs::Items::behind))]
pub fn behind(item: ItemAt) -> usize
    ensures { result ≡ behind item }
{
    match item {
        ItemAt::Need { after, .. }
        | ItemAt::Add { after, .. }
        | ItemAt::Delete { after, .. }
        | ItemAt::Condition { after, .. }
        | ItemAt::Effect { after, .. } => after,
        ItemAt::End => 0,
    }
}

// The variable of the term at `at`.
pub fn variable(part: &[u8], at: usize) -> usize
    requires { TermAt part.now at }
    ensures { IsVariable part.now at result }
{
    part[at + 1] as usize
}

// The weight of the term at `at`.
pub fn weight(part: &[u8], at: usize) -> i64
    requires { TermAt part.now at }
    ensures { IsWeight part.now at result }
{
    integer::i16_at(part, at + 2)
}

// The value `x` times the weight of the term at `at`.
pub fn scaled(part: &[u8], at: usize, x: i64) -> i64
    requires { (TermAt part.now at) × (nat_abs x ≤ largest_value) }
    ensures { IsScaled part.now at x result }
{
    weight(part, at) * x
}

// The sum of these terms over the values of a state.
pub fn sum_real(terms: &Terms, values: &[i64]) -> i64
    requires { Summable terms.now.part.now terms.now.from terms.now.count values.now }
    ensures { IsSum terms.now.part.now terms.now.from terms.now.count values.now result }
{
    let mut total: i64 = 0;
    for i in 0..terms.count {
        let at = terms.from + 4 * i;
        let v = variable(terms.part, at);
        let x = values[v];
        total += scaled(terms.part, at, x);
    }
    total
}

// Is the number the mark for unbounded?
pub fn is_unbounded(x: i64) -> bool
    ensures { result ≡ is_mark x }
{
    x == UNBOUNDED
}

// The sum of these terms over the values of a layer.
pub fn sum_layer(terms: &Terms, layer: &[i64]) -> i64
    requires { LayerSummable terms.now.part.now terms.now.from terms.now.count layer.now }
    ensures { IsLayerSum terms.now.part.now terms.now.from terms.now.count layer.now result }
{
    let mut total: i64 = 0;
    for i in 0..terms.count {
        let at = terms.from + 4 * i;
        let v = variable(terms.part, at);
        let x = layer[v];
        if is_unbounded(x) {
            return UNBOUNDED;
        }
        total += scaled(terms.part, at, x);
    }
    total
}

// The value in a layer of an effect with these terms and that constant.
pub fn layer_value(terms: &Terms, base: i64, layer: &[i64]) -> i64
    requires { (LayerSummable terms.now.part.now terms.now.from terms.now.count layer.now) × (nat_abs base ≤ 1000000) }
    ensures { IsLayerValue terms.now.part.now terms.now.from terms.now.count base layer.now result }
{
    let s = sum_layer(terms, layer);
    if is_unbounded(s) {
        return UNBOUNDED;
    }
    s + base
}

// Is a layer's value at least `c`?
pub fn reaches(value: i64, c: i64) -> bool
    ensures { (x : Value) → value ≡ encode x → result ≡ reaches x c }
{
    c <= value
}

// Does the sum `total` compare with `c` as the operator of that number says?
pub fn compare(comparison: u8, total: i64, c: i64) -> bool
    ensures { (o : Comparison) → comparison_code o ≡ comparison → result ≡ compares o total c }
{
    match comparison {
        0 => c <= total,
        1 => c < total,
        2 => total <= c,
        3 => total < c,
        _ => total == c,
    }
}

// Does the condition, a sum of at least `bound`, hold in a layer?
pub fn condition_reached(terms: &Terms, bound: i64, layer: &[i64]) -> bool
    requires { LayerSummable terms.now.part.now terms.now.from terms.now.count layer.now }
    ensures { IsLayerTest terms.now.part.now bound terms.now.from terms.now.count layer.now result }
{
    reaches(sum_layer(terms, layer), bound)
}

// A sum over the values of a state: the number of its terms, and what they add up to.
#[derive(Clone, Copy)]
pub struct Sum {
    pub terms: usize,
    pub total: i64,
}

// The sum of the terms from `from` on, before the command that closes them or has none.
pub fn sum_at(part: &[u8], from: usize, values: &[i64]) -> Sum
    requires { Addable part.now from values.now }
    ensures { SumAt part.now from values.now result.terms result.total }
{
    let mut n = 0;
    let mut total: i64 = 0;
    while part[from + 4 * n] == 0x57 {
        let at = from + 4 * n;
        let v = variable(part, at);
        let x = values[v];
        total += scaled(part, at, x);
        n += 1;
    }
    Sum { terms: n, total }
}

// The bytes of a command in a block, with its operands.
pub fn width(command: u8) -> usize
    ensures { result ≡ width_by command }
{
    match command {
        0x57 => 4,
        0x43 => 6,
        0x46 => 7,
        _ => 2,
    }
}

// Is the command behind these terms, which add up to `total`, a condition that fails?
pub fn fails(terms: &Terms, total: i64, has: &[bool]) -> bool
    requires { Judged terms.now.part.now terms.now.from terms.now.count total has.now }
    ensures { Judgement terms.now.part.now terms.now.from terms.now.count total has.now result }
{
    let part = terms.part;
    let at = terms.from + 4 * terms.count;
    match part[at] {
        0x50 => !has[part[at + 1] as usize],
        0x43 => !compare(part[at + 1], total, integer::i32_at(part, at + 2)),
        _ => false,
    }
}

// Do all conditions of the block hold in the state of these propositions and values? Each term is read once, on the way.
pub fn applicable(part: &[u8], has: &[bool], values: &[i64]) -> bool
    requires { Testable part.now has.now values.now }
    ensures { IsApplicable part.now has.now values.now result }
{
    let mut from = 1;
    while from < part.len() {
        let sum = sum_at(part, from, values);
        let count = sum.terms;
        let terms = Terms { part, from, count };
        if fails(&terms, sum.total, has) {
            return false;
        }
        from = from + 4 * count + width(part[from + 4 * count]);
    }
    true
}

// The offset in the part of the first 50 or 43 that the layer of these propositions and values does not meet; the part's length where
// it meets all. The block is one of a normal table.
pub fn unmet(part: &[u8], has: &[bool], layer: &[i64]) -> usize
    requires { LayerTestable part.now has.now layer.now }
    ensures { IsUnmet part.now has.now layer.now result }
{
    let mut at = 1;
    loop {
        let item = next(part, at);
        match item {
            ItemAt::Need { prop, after } => {
                if !has[prop] {
                    return after - 2;
                }
            }
            ItemAt::Condition {
                bound,
                from,
                terms: count,
                after,
                ..
            } => {
                let terms = Terms { part, from, count };
                if !condition_reached(&terms, bound, layer) {
                    return after - 6;
                }
            }
            ItemAt::End => return part.len(),
            _ => {}
        }
        at = behind(item);
    }
}

// Do all conditions of the block, one of a normal table, hold in the layer of these propositions and values?
pub fn usable(part: &[u8], has: &[bool], layer: &[i64]) -> bool
    requires { LayerTestable part.now has.now layer.now }
    ensures { IsUsable part.now has.now layer.now result }
{
    unmet(part, has, layer) >= part.len()
}
