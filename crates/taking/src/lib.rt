// The moves taken in one layer for what is wanted above it, and their counts (document 01, "Plan").
#![tactic(auto)]

ghost use Rattle.std.specs.Prelude.{◌≡◌, ◌<◌, ◌≤◌, replicate, nat_abs};
ghost use Rattle.model.specs.Limits.{largest_value};
ghost use Rattle.targets.specs.Encoding.{target_limit};
ghost use Rattle.taking.specs.Taking.{counted_at, Above0, IsStep, IsRuns};
ghost use Rattle.taking.specs.Descending.{PropsTakeable, PropsTaken, ValuesTakeable, ValuesTaken};

use block::Terms;
use reader::Blocks;
use targets::Targets;

// A stored layer as it is read back: its propositions and usable moves, its values, and the low values beside the state's.
#[derive(Clone, Copy)]
pub struct Below<'a> {
    pub has: &'a [bool],
    pub used: &'a [bool],
    pub row: &'a [i64],
    pub lows: &'a [i64],
}

// "A move taken twice in a layer keeps its larger count."
fn recount(counts: &mut [u64; 64], b: usize, n: u64)
    requires { b < 64 }
    ensures { counts.new ≡ counted_at counts.old b n }
{
    counts[b] = counts[b].max(n);
}

// No move is taken.
pub fn no_counts() -> [u64; 64]
    ensures { result ≡ replicate 64 0 }
{
    [0; 64]
}

// "d the value in t−1 if finite, else 1".
fn step_size(value: i64) -> u64
    requires { Above0 value }
    ensures { (IsStep value result) × (0 < result) × (result ≤ 8000000001000000) }
{
    if block::is_unbounded(value) {
        return 1;
    }
    value as u64
}

// "Count: 1; for += (T − state value of v)/d rounded up".
fn runs(kind: u8, target: i64, old: i64, value: i64) -> u64
    requires { (nat_abs target ≤ target_limit) × (nat_abs old ≤ largest_value) × ((kind ≡ 0 → ⊥) → Above0 value) }
    ensures { IsRuns kind target old value result }
{
    if kind == 0 {
        return 1;
    }
    let d = step_size(value);
    integer::ceil_div(target - old, d).max(0) as u64
}

// "For any other, try the moves": for each proposition wanted above that the layer lacks, the first move that adds it is counted once,
// and its conditions are wanted. The counts begin anew.
pub fn take_props(
    mut wants: Targets,
    wanted: &[bool; 120],
    blocks: &Blocks,
    below: &Below,
    counts: &mut [u64; 64],
) -> Targets
    requires { PropsTakeable blocks.now.table.now blocks.now.marks.now below.now.has.now below.now.used.now below.now.row.now below.now.lows.now blocks.now.moves blocks.now.props wanted.now wants }
    ensures { (x : PropsTakeable blocks.now.table.now blocks.now.marks.now below.now.has.now below.now.used.now below.now.row.now below.now.lows.now blocks.now.moves blocks.now.props wanted.now wants)
        → PropsTaken x blocks.now.props result counts.new }
{
    *counts = no_counts();
    for p in 0..blocks.props {
        if !wanted[p] {
            continue;
        }
        if below.has[p] {
            continue;
        }
        let Some(b) = achievers::find_adder(blocks, below.used, p) else {
            continue;
        };
        recount(counts, b, 1);
        wants = wants.want_block(blocks.part(b), below.row, below.lows);
    }
    wants
}

// For each target above that the layer does not reach, the first move whose effect reaches it is counted by its runs, and its
// conditions and that value are wanted. The counts are those of the propositions.
pub fn take_values(
    mut wants: Targets,
    wanted: &[i64; 32],
    blocks: &Blocks,
    below: &Below,
    start: &[i64],
    counts: &mut [u64; 64],
) -> Targets
    requires { ValuesTakeable blocks.now.table.now blocks.now.marks.now below.now.used.now below.now.row.now below.now.lows.now start.now blocks.now.moves blocks.now.vars wanted.now wants counts.old }
    ensures { (x : ValuesTakeable blocks.now.table.now blocks.now.marks.now below.now.used.now below.now.row.now below.now.lows.now start.now blocks.now.moves blocks.now.vars wanted.now wants counts.old)
        → ValuesTaken x blocks.now.vars result counts.new }
{
    for v in 0..blocks.vars {
        let target = wanted[v];
        if targets::is_free(target) {
            continue;
        }
        let x = below.row[v];
        if block::reaches(x, target) {
            continue;
        }
        let old = start[v];
        let Some(a) = achievers::find_achiever(blocks, below.used, below.row, v, target) else {
            continue;
        };
        recount(counts, a.index, runs(a.kind, target, old, a.value));
        let part = blocks.part(a.index);
        let c = achievers::demand(a.kind, target) - a.base;
        wants = wants.want_block(part, below.row, below.lows);
        let terms = Terms {
            part,
            from: a.from,
            count: a.terms,
        };
        wants = wants.want_sum(&terms, c, below.row, below.lows);
    }
    wants
}
