// The step from a layer to the next one (document 01, "Layers"): it is equal to the last one, refused by 15 or 14, or new.
#![tactic(auto)]

ghost use Rattle.layer_step.specs.Step.{Steppable, Stepped, RowStored};

use layer_memory::Layer;
use model::Reason;
use reader::Blocks;

// What the next layer is: equal to the last one, or new.
#[derive(Clone, Copy)]
pub enum NextLayer {
    Same,
    New,
}

// "The next layer is written into the memory behind the last one": reads the last layer and writes the part of the memory that starts
// at the next one. That layer is worked out in `next`, whose truths begin as the last one's, so that an equal one, 15 and 14 leave the part as it is.
pub fn step(
    blocks: &Blocks,
    layer: &Layer,
    next: &mut Layer,
    used: &mut [bool; 64],
    behind: &mut [i64],
) -> Result<NextLayer, Reason>
    requires { Steppable blocks.now.table.now blocks.now.marks.now blocks.now.props blocks.now.vars blocks.now.moves layer.now.has layer.now.row next.old.has used.old }
    ensures { Stepped blocks.now.table.now blocks.now.marks.now blocks.now.props blocks.now.vars blocks.now.moves layer.now.has layer.now.row next.old.has used.old behind.old next.new.has used.new behind.new result
        × RowStored blocks.now.vars next.new.row behind.old behind.new result }
{
    next.row = layer.row;
    layer_moves::use_moves(blocks, layer, next, used);
    if layer_checks::settled(layer, next, blocks.props, blocks.vars) {
        return Ok(NextLayer::Same);
    }
    if !layer_checks::all_within(&next.row, blocks.vars) {
        return Err(Reason::LayerTooLarge);
    }
    if behind.len() < blocks.vars {
        return Err(Reason::MemoryTooShort);
    }
    layer_memory::copy_row(&next.row, behind, blocks.vars);
    Ok(NextLayer::New)
}
