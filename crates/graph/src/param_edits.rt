ghost use Rattle.std.specs.Prelude.{◌≡◌, ◌<◌, true, false, length, Ok, Err};
ghost use Rattle.model.specs.Refusals.{outcome};
ghost use Rattle.model.specs.declared.fault.GraphFault.TheVariants.{Loose};
ghost use Rattle.ir.specs.Packing.{retired};
ghost use Rattle.values.specs.Leads.{at, Exists};
ghost use Rattle.model.specs.State.{attached};
ghost use Rattle.model.specs.Edits.{append_block_param, attach_block_param, detach_block_params, is_param, remove_block_param, replace_block_param, swap_remove_block_param};
ghost use Rattle.params.specs.Places.{Untouched, with_memory};
ghost use Rattle.defs.specs.Graphs.{Kept, graph_of};

use crate::graph::DataFlowGraph;
use ir::entities::{Block, Type, Value};
use model::fault::GraphFault;

impl<'a> DataFlowGraph<'a> {
    // A new parameter of a block, after its others.
    pub fn append_block_param(&mut self, block: Block, ty: Type) -> Result<Value, GraphFault>
        ensures says { outcome result (graph_of self.new.defs) ≡ append_block_param block ty (graph_of self.old.defs) }
        ensures kept { Kept result self.old.defs self.new.defs }
    {
        params::append::append_block_param(&mut self.defs, block, ty)
    }

    // A loose value as the next parameter of a block. It keeps its type.
    pub fn attach_block_param(&mut self, block: Block, v: Value) -> Result<(), GraphFault>
        ensures says { outcome result (graph_of self.new.defs) ≡ attach_block_param block v (graph_of self.old.defs) }
        ensures kept { Kept result self.old.defs self.new.defs }
    {
        params::append::attach_block_param(&mut self.defs, block, v)
    }

    // A new parameter in the place of another, which is left loose.
    pub fn replace_block_param(&mut self, v: Value, ty: Type) -> Result<Value, GraphFault>
        ensures says { outcome result (graph_of self.new.defs) ≡ replace_block_param v ty (graph_of self.old.defs) }
        ensures kept { Kept result self.old.defs self.new.defs }
        ensures loose { Exists (graph_of self.old.defs).defs v → retired (at (graph_of self.old.defs).defs v) ≡ false → ty.0 < 16384 → is_param (at (graph_of self.old.defs).defs v) ≡ true → attached (graph_of self.old.defs) v ≡ false → (result ≡ Err (Loose v.0)) × (self.new.defs ≡ self.old.defs) }
    {
        params::replace::replace_block_param(&mut self.defs, v, ty)
    }

    // Takes a parameter out of its block's list; the later ones move up.
    pub fn remove_block_param(&mut self, v: Value) -> Result<(), GraphFault>
        ensures says { outcome result (graph_of self.new.defs) ≡ remove_block_param v (graph_of self.old.defs) }
        ensures kept { Kept result self.old.defs self.new.defs }
    {
        params::remove::remove_block_param(&mut self.defs, v)
    }

    // Takes a parameter out of its block's list; the last one moves into the gap. Answers the place.
    pub fn swap_remove_block_param(&mut self, v: Value) -> Result<u32, GraphFault>
        ensures says { outcome result (graph_of self.new.defs) ≡ swap_remove_block_param v (graph_of self.old.defs) }
        ensures kept { Kept result self.old.defs self.new.defs }
    {
        params::remove::swap_remove_block_param(&mut self.defs, v)
    }

    // Empties a block's list and writes what it held to the start of the caller's memory. Answers how many there were.
    pub fn detach_block_params(
        &mut self,
        block: Block,
        out: &mut [Value],
    ) -> Result<u32, GraphFault>
        ensures says { with_memory result out.new (graph_of self.new.defs) ≡ detach_block_params block out.old (graph_of self.old.defs) }
        ensures kept { Kept result self.old.defs self.new.defs }
        ensures memory { Untouched result out.old out.new }
    {
        params::detach::detach_block_params(&mut self.defs, block, out)
    }
}
