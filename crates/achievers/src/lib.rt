// "try the moves usable in t−1 in rising order and take the first": the first move that adds a proposition or whose effect reaches a
// target (document 01, "Plan").
#![tactic(auto)]

ghost use Rattle.std.specs.Prelude.{◌≡◌};
ghost use Rattle.model.specs.Task.{Block, adds};
ghost use Rattle.block.specs.Items.{Ranges, Left, Readable};
ghost use Rattle.achievers.specs.Search.{demand_by, Searchable, IsAdder, Achievable, IsAchiever};

use block::{ItemAt, Terms};
use reader::Blocks;

// The move whose effect was found, the effect and its value in the layer.
#[derive(Clone, Copy)]
pub struct Achiever {
    pub index: usize,
    pub kind: u8,
    pub base: i64,
    pub from: usize,
    pub terms: usize,
    pub value: i64,
}

// "value ≥ target T (:=) or > 0 (+=)": what the value has to reach.
pub fn demand(kind: u8, target: i64) -> i64
    ensures { result ≡ demand_by kind target }
{
    if kind == 0 {
        return target;
    }
    1
}

// Does the move of this part add the proposition?
fn adds(part: &[u8], p: usize) -> bool
    requires { Readable part.now 1 }
    ensures { (k : Ranges) (block : Block) → Left k part.now 1 block → result ≡ adds p block }
{
    let mut at = 1;
    while at < part.len() {
        let item = block::next(part, at);
        at = block::behind(item);
        if let ItemAt::Add { prop, .. } = item {
            if prop == p {
                return true;
            }
        }
    }
    false
}

// "take the first that adds the proposition": of the moves, those marked in `used`.
pub fn find_adder(blocks: &Blocks, used: &[bool], p: usize) -> Option<usize>
    requires { Searchable blocks.now.table.now blocks.now.marks.now used.now blocks.now.moves }
    ensures { (x : Searchable blocks.now.table.now blocks.now.marks.now used.now blocks.now.moves)
        → IsAdder x.task x.over p blocks.now.moves result }
{
    for b in 0..blocks.moves {
        if !used[b] {
            continue;
        }
        if adds(blocks.part(b), p) {
            return Some(b);
        }
    }
    None
}

// "or whose effect on v has value ≥ target T (:=) or > 0 (+=)": of the moves, those marked in `used`, with values over the layer's row.
pub fn find_achiever(
    blocks: &Blocks,
    used: &[bool],
    row: &[i64],
    v: usize,
    target: i64,
) -> Option<Achiever>
    requires { Achievable blocks.now.table.now blocks.now.marks.now used.now row.now blocks.now.moves }
    ensures { (x : Achievable blocks.now.table.now blocks.now.marks.now used.now row.now blocks.now.moves)
        → IsAchiever blocks.now.table.now blocks.now.marks.now x.search.task x.search.over v target blocks.now.moves result }
{
    'found: {
        'moves: for index in 0..blocks.moves {
            if !used[index] {
                continue;
            }
            let part = blocks.part(index);
            let mut at = 1;
            while at < part.len() {
                let item = block::next(part, at);
                at = block::behind(item);
                if let ItemAt::Effect {
                    kind,
                    var,
                    base,
                    from,
                    terms: count,
                    ..
                } = item
                {
                    if var == v {
                        let value = block::layer_value(&Terms { part, from, count }, base, row);
                        if block::reaches(value, demand(kind, target)) {
                            break 'found Some(Achiever {
                                index,
                                kind,
                                base,
                                from,
                                terms: count,
                                value,
                            });
                        }
                        continue 'moves;
                    }
                }
            }
        }
        None
    }
}
