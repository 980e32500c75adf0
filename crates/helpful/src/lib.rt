// The helpful moves: those usable in layer 0 that give something which is wanted at layer 1 and layer 0 lacks (document 02, request 6).
#![tactic(auto)]

ghost use Rattle.std.specs.Prelude.{◌≡◌, not, ◌&&◌};
ghost use Rattle.model.specs.Plan.{helpful, set_of};
ghost use Rattle.helpful.specs.Support.{Testable, ReachesNew, Supportable, Supports};
ghost use Rattle.helpful.specs.Sets.{Gatherable, LayerOne, HelpfulSet};

use block::{ItemAt, Terms};
use reader::Blocks;
use targets::Targets;

// "first had and wanted at layer 1": wanted, and not had in the layer before.
fn lacking(wanted: bool, had: bool) -> bool
    ensures { result ≡ (wanted && not had) }
{
    wanted && !had
}

// "whose effect reaches, by the test that Plan uses to take a move .., a target there that layer 0 did not": the effect with these
// terms on a variable with value `old` in the layer of this row.
fn reaches_new(terms: &Terms, kind: u8, base: i64, row: &[i64], old: i64, target: i64) -> bool
    requires { Testable terms.now.part.now kind base terms.now.from terms.now.count row.now }
    ensures { ReachesNew terms.now.part.now kind base terms.now.from terms.now.count row.now old target result }
{
    if targets::is_free(target) {
        return false;
    }
    if block::reaches(old, target) {
        return false;
    }
    let value = block::layer_value(terms, base, row);
    block::reaches(value, achievers::demand(kind, target))
}

// Does the block add a proposition that is wanted and that layer 0, whose values are the row, lacks, or reach such a target?
fn supports(
    part: &[u8],
    wanted: &[bool; 120],
    targets: &[i64; 32],
    layers: &[i64],
    row: &[i64],
) -> bool
    requires { Supportable part.now wanted.now targets.now layers.now row.now }
    ensures { Supports part.now wanted.now targets.now layers.now row.now result }
{
    let mut at = 1;
    while at < part.len() {
        let item = block::next(part, at);
        at = block::behind(item);
        match item {
            ItemAt::Add { prop, .. } => {
                if lacking(wanted[prop], stored_layer::held(layers[prop], 0)) {
                    return true;
                }
            }
            ItemAt::Effect {
                kind,
                var,
                base,
                from,
                terms: count,
                ..
            } => {
                let terms = Terms { part, from, count };
                if reaches_new(&terms, kind, base, row, row[var], targets[var]) {
                    return true;
                }
            }
            _ => {}
        }
    }
    false
}

// "the set holds each move usable in layer 0 that ..": bit b for move b. The row is layer 0's.
fn gather(
    blocks: &Blocks,
    wanted: &[bool; 120],
    targets: &[i64; 32],
    layers: &[i64],
    row: &[i64],
) -> u64
    requires { Gatherable blocks.now.table.now blocks.now.marks.now wanted.now targets.now layers.now row.now blocks.now.props blocks.now.moves }
    ensures { (x : Gatherable blocks.now.table.now blocks.now.marks.now wanted.now targets.now layers.now row.now blocks.now.props blocks.now.moves)
        → result ≡ set_of (helpful x.over x.wants) x.task.moves }
{
    let mut set: u64 = 0;
    for b in (0..blocks.moves).rev() {
        set = 2 * set;
        if !stored_layer::held(layers[blocks.props + b], 0) {
            continue;
        }
        if !supports(blocks.part(b), wanted, targets, layers, row) {
            continue;
        }
        set += 1;
    }
    set
}

// The helpful moves, from the layers in memory and the wants of layer 1.
pub fn helpful_moves(wants: Targets, blocks: &Blocks, layers: &[i64]) -> u64
    requires { LayerOne blocks.now.table.now blocks.now.marks.now layers.now blocks.now.props blocks.now.moves wants }
    ensures { (x : LayerOne blocks.now.table.now blocks.now.marks.now layers.now blocks.now.props blocks.now.moves wants) → HelpfulSet x result }
{
    let row = &layers[blocks.props + blocks.moves..];
    gather(blocks, &wants.props, &wants.target, layers, row)
}
