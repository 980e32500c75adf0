// What the moves whose conditions hold in a layer give the next one (document 01, "Layers").
#![tactic(auto)]

ghost use Rattle.layer_moves.specs.Raising.{IsOffer, Raisable, IsRaised};
ghost use Rattle.layer_moves.specs.Walking.{Appliable, Applied};
ghost use Rattle.layer_moves.specs.UsingMoves.{Takeable, TakenIn, MovesReady, MovesUsed};

use block::{ItemAt, Terms};
use layer_memory::Layer;
use reader::Blocks;

// "a += whose value in layer t is above 0 makes its variable unbounded; a := raises it to its value": what an effect with that
// value offers its variable, whose value in the layer is `old`.
fn offer(kind: u8, value: i64, old: i64) -> i64
    ensures { IsOffer kind value old result }
{
    if kind == 0 {
        value
    } else if block::reaches(value, 1) {
        block::UNBOUNDED
    } else {
        old
    }
}

// Raises the variable in the next layer to what the effect with these terms offers, if that is larger. Nothing is above unbounded: there the effect's
// value is not worked out.
fn raise(terms: &Terms, kind: u8, var: usize, base: i64, row: &[i64], next: &mut [i64])
    requires { Raisable terms.now.part.now kind var base terms.now.from terms.now.count row.now next.old }
    ensures { IsRaised terms.now.part.now kind var base terms.now.from terms.now.count row.now next.old next.new }
{
    let so_far = next[var];
    if block::is_unbounded(so_far) {
        return;
    }
    let value = block::layer_value(terms, base, row);
    let old = row[var];
    let offered = offer(kind, value, old);
    next[var] = so_far.max(offered);
}

// Takes the items of a move's part into the next layer: its propositions are added and its effects raise values.
fn apply(part: &[u8], row: &[i64], next: &mut Layer)
    requires { Appliable part.now row.now next.old.has next.old.row }
    ensures { Applied part.now row.now next.old.has next.old.row next.new.has next.new.row }
{
    let mut at = 1;
    loop {
        let item = block::next(part, at);
        match item {
            ItemAt::Add { prop, .. } => {
                next.has[prop] = true;
            }
            ItemAt::Effect {
                kind,
                var,
                base,
                from,
                terms: count,
                ..
            } => {
                let terms = Terms { part, from, count };
                raise(&terms, kind, var, base, row, &mut next.row);
            }
            ItemAt::End => return,
            _ => {}
        }
        at = block::behind(item);
    }
}

// Takes a move's part into the next layer if the move's conditions hold in this one; tells whether they do. Layers only grow: a
// move that the step before used is usable again, and is not tested.
fn take_in(part: &[u8], before: bool, layer: &Layer, next: &mut Layer) -> bool
    requires { Takeable part.now layer.now.has layer.now.row next.old.has next.old.row }
    ensures { TakenIn part.now before layer.now.has layer.now.row next.old.has next.old.row next.new.has next.new.row result }
{
    let usable = before || block::usable(part, &layer.has, &layer.row);
    if usable {
        apply(part, &layer.row, next);
    }
    usable
}

// "from all moves whose conditions hold in layer t": the next layer, begun as this one, and the moves that the step used. `used` comes
// with those that the step before used.
pub fn use_moves(blocks: &Blocks, layer: &Layer, next: &mut Layer, used: &mut [bool])
    requires { MovesReady blocks.now.table.now blocks.now.marks.now blocks.now.moves layer.now.has layer.now.row next.old.has next.old.row used.old }
    ensures { MovesUsed blocks.now.table.now blocks.now.marks.now blocks.now.moves layer.now.has layer.now.row next.old.has next.old.row used.old next.new.has next.new.row used.new }
{
    for b in 0..blocks.moves {
        let part = blocks.part(b);
        let before = used[b];
        used[b] = take_in(part, before, layer, next);
    }
}
