ghost use Rattle.std.specs.Prelude.{◌≡◌};
ghost use Rattle.model.specs.Refusals.{outcome};
ghost use Rattle.model.specs.Edits.{make_block};
ghost use Rattle.defs.specs.Graphs.{Kept, graph_of};

use defs::judges::refuse_when;
use defs::state::Defs;
use ir::entities::Block;
use model::fault::GraphFault;

// A new block, without parameters.
pub fn make_block(defs: &mut Defs<'_>) -> Result<Block, GraphFault>
    ensures says { outcome result (graph_of defs.new) ≡ make_block (graph_of defs.old) }
    ensures kept { Kept result defs.old defs.new }
{
    refuse_when(
        defs.blocks >= defs.block_limit,
        GraphFault::Full(defs.block_limit),
    )?;
    let block = Block(defs.blocks);
    defs.blocks += 1;
    Ok(block)
}
