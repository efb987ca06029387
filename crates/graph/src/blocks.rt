ghost use Rattle.std.specs.Prelude.{◌≡◌, length};
ghost use Rattle.model.specs.Refusals.{outcome};
ghost use Rattle.model.specs.Edits.{make_block};
ghost use Rattle.defs.specs.Graphs.{Kept, graph_of};
ghost use Rattle.defs.specs.Opening.{opened};

use crate::graph::DataFlowGraph;
use defs::memory::GraphMemory;
use defs::state::Defs;
use ir::entities::Block;
use model::fault::GraphFault;

impl<'a> DataFlowGraph<'a> {
    // A new graph in lent memory: it is empty, with the limits that the memory gives, and at most so many blocks.
    pub fn new(memory: GraphMemory<'a>, blocks: u32) -> Self
        ensures { graph_of result.defs ≡ opened memory.entry blocks }
    {
        let defs = Defs::new(memory, blocks);
        DataFlowGraph { defs }
    }

    // A new block, with no parameters.
    pub fn make_block(&mut self) -> Result<Block, GraphFault>
        ensures says { outcome result (graph_of self.new.defs) ≡ make_block (graph_of self.old.defs) }
        ensures kept { Kept result self.old.defs self.new.defs }
    {
        insts::blocks::make_block(&mut self.defs)
    }
}
