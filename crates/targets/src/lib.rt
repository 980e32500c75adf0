// What is wanted in a layer: propositions and one target a variable (document 01, "Plan").
#![tactic(auto)]

ghost use Rattle.std.specs.Prelude.{◌≡◌, ℕ, ◌<◌, ◌≤◌, length, Bool, false, ◌&&◌, List, pos, nat_abs};
ghost use Rattle.model.specs.Plan.{want_finite};
ghost use Rattle.model.specs.Layer.{Value};
ghost use Rattle.model.specs.Memory.{encode};
ghost use Rattle.block.specs.Sums.{LayerRow};
ghost use Rattle.targets.specs.Wanting.{sum_limit, Finitely, FinitelyIn, Wantable, WantableIn, Wanted, UnboundedIn, NormalTerm, IsDivisor};
ghost use Rattle.targets.specs.Blocks.{BlockWantable, BlockWanted};
ghost use Rattle.targets.specs.Carrying.{Mapped, held_in, kept_by, kept_at, Carriable, Carried};
ghost use Rattle.targets.specs.Encoding.{fresh, holding, is_free, raised_at, Added, Encodes};

use block::{ItemAt, Terms};

// The least 64-bit number stands for "no target".
const NO_TARGET: i64 = i64::MIN;

// "keep wanted propositions and one target (the largest) a variable".
#[derive(Clone, Copy)]
pub struct Targets {
    pub props: [bool; 120],
    pub target: [i64; 32],
}

impl Targets {
    // Nothing is wanted.
    pub fn none() -> Self
        ensures { result ≡ fresh }
    {
        Targets {
            props: [false; 120],
            target: [NO_TARGET; 32],
        }
    }

    // Wants a proposition.
    pub fn want_prop(mut self, p: usize) -> Self
        requires { p < 120 }
        ensures { Added self p result }
    {
        self.props[p] = true;
        self
    }

    // "To want "sum ≥ c" in layer t".
    pub fn want_sum(mut self, terms: &Terms, c: i64, row: &[i64], lows: &[i64]) -> Self
        requires { (Wantable terms.now.part.now terms.now.from terms.now.count row.now lows.now self) × (nat_abs c ≤ sum_limit) }
        ensures { (x : Wantable terms.now.part.now terms.now.from terms.now.count row.now lows.now self) → Wanted x c result }
    {
        raise_sum(&mut self.target, terms, c, row, lows);
        self
    }

    // "what layer t−1 already has is carried down": of these wants, those that the layer has.
    pub fn carry_down(mut self, has: &[bool], row: &[i64], props: usize, vars: usize) -> Self
        requires { Carriable props vars has.now row.now self }
        ensures { (x : Carriable props vars has.now row.now self) → Carried x result }
    {
        keep_props(&mut self.props, has, props);
        keep_targets(&mut self.target, row, vars);
        self
    }

    // "Want its conditions": those of the block whose part is lent, a move or the goal.
    pub fn want_block(mut self, part: &[u8], row: &[i64], lows: &[i64]) -> Self
        requires { BlockWantable part.now row.now lows.now self }
        ensures { (x : BlockWantable part.now row.now lows.now self) → BlockWanted x result }
    {
        let mut at = 1;
        loop {
            let item = block::next(part, at);
            match item {
                ItemAt::Need { prop, .. } => {
                    self = self.want_prop(prop);
                }
                ItemAt::Condition {
                    bound,
                    from,
                    terms: count,
                    ..
                } => {
                    let terms = Terms { part, from, count };
                    self = self.want_sum(&terms, bound, row, lows);
                }
                ItemAt::End => {
                    return self;
                }
                _ => {}
            }
            at = block::behind(item);
        }
    }
}

// Of the propositions that are wanted, those that the layer has.
fn keep_props(wanted: &mut [bool; 120], has: &[bool], props: usize)
    requires { (props ≤ length has.now) × (props ≤ 120) × (length wanted.old ≡ 120) }
    ensures { Mapped false (held_in has.now) props wanted.old wanted.new }
{
    for p in 0..props {
        wanted[p] = wanted[p] && has[p];
    }
}

// A target that the layer's value reaches, or none.
fn kept_target(target: i64, value: i64) -> i64
    ensures { (x : Value) → value ≡ encode x → result ≡ kept_by x target }
{
    if block::reaches(value, target) {
        return target;
    }
    NO_TARGET
}

// Of the targets, those that the layer's values reach.
fn keep_targets(target: &mut [i64; 32], row: &[i64], vars: usize)
    requires { (vars ≤ length row.now) × (vars ≤ 32) × (length target.old ≡ 32) }
    ensures { (f : ℕ → Value) → LayerRow vars row.now f → Mapped (pos 0) (kept_at f) vars target.old target.new }
{
    for v in 0..vars {
        let old = target[v];
        let value = row[v];
        target[v] = kept_target(old, value);
    }
}

// Targets are raised where they stand: a call by value copies them all.

// The target of the variable is `z` or larger.
fn raise_target(target: &mut [i64; 32], v: usize, z: i64)
    requires { v < 32 }
    ensures { target.new ≡ raised_at target.old v z }
{
    let old = target[v];
    target[v] = old.max(z);
}

// "each finite variable's target is its layer value": of the variables of these terms.
fn raise_finite(target: &mut [i64; 32], terms: &Terms, row: &[i64])
    requires { FinitelyIn terms.now.part.now terms.now.from terms.now.count row.now target.old }
    ensures { (ps : List Bool) (x : Finitely terms.now.part.now terms.now.from terms.now.count row.now (holding ps target.old))
        → Encodes x.ranges.props x.ranges.vars (holding ps target.new) (want_finite x.over x.wants x.ts) }
{
    for i in 0..terms.count {
        let v = block::variable(terms.part, terms.from + 4 * i);
        let x = row[v];
        if block::is_unbounded(x) {
            continue;
        }
        raise_target(target, v, x);
    }
}

// The target of the lowest unbounded variable `v`, that of the first of these terms, and those of the terms behind it.
fn raise_unbounded(
    target: &mut [i64; 32],
    terms: &Terms,
    v: usize,
    c: i64,
    row: &[i64],
    lows: &[i64],
)
    requires { UnboundedIn terms.now.part.now terms.now.from terms.now.count v c row.now lows.now target.old }
    ensures { (ps : List Bool) (x : Wantable terms.now.part.now terms.now.from terms.now.count row.now lows.now (holding ps target.old))
        → Wanted x c (holding ps target.new) }
{
    let others = Terms {
        part: terms.part,
        from: terms.from + 4,
        count: terms.count - 1,
    };
    raise_finite(target, &others, row);
    let rest = c - block::sum_real(&others, lows);
    raise_target(
        target,
        v,
        integer::ceil_div(rest, divisor(terms.part, terms.from)),
    );
}

// The sum of these terms is wanted to be `c` or larger, over the layer's row and the row of low values.
fn raise_sum(target: &mut [i64; 32], terms: &Terms, c: i64, row: &[i64], lows: &[i64])
    requires { (WantableIn terms.now.part.now terms.now.from terms.now.count row.now lows.now target.old) × (nat_abs c ≤ sum_limit) }
    ensures { (ps : List Bool) (x : Wantable terms.now.part.now terms.now.from terms.now.count row.now lows.now (holding ps target.old))
        → Wanted x c (holding ps target.new) }
{
    let mut left = c;
    for i in 0..terms.count {
        let at = terms.from + 4 * i;
        let v = block::variable(terms.part, at);
        let x = row[v];
        if block::is_unbounded(x) {
            let rest = Terms {
                part: terms.part,
                from: at,
                count: terms.count - i,
            };
            raise_unbounded(target, &rest, v, left, row, lows);
            return;
        }
        left -= block::scaled(terms.part, at, x);
        raise_target(target, v, x);
    }
}

// The weight of the term at `at` of a normal table.
fn divisor(part: &[u8], at: usize) -> u64
    requires { NormalTerm part.now at }
    ensures { IsDivisor part.now at result }
{
    let w = block::weight(part, at);
    w as u64
}

// Is there no target?
pub fn is_free(target: i64) -> bool
    ensures { result ≡ is_free target }
{
    target == NO_TARGET
}
