ghost use Rattle.std.specs.Prelude.{◌≡◌};
ghost use Rattle.model.specs.Refusals.{outcome};
ghost use Rattle.model.specs.Edits.{clone_inst, make_inst};
ghost use Rattle.judges.specs.States.{Unchanged, state};
ghost use Rattle.defs.specs.Graphs.{Kept, graph_of};

use crate::graph::DataFlowGraph;
use ir::entities::{Block, Inst, Opcode, Value};
use model::fault::GraphFault;
use table::inst_table::InstTable;

impl<'a> DataFlowGraph<'a> {
    // A new instruction of that opcode and those operands, with a call of no arguments for each target.
    pub fn make_inst<T: InstTable>(
        &mut self,
        table: &mut T,
        opcode: Opcode,
        operands: &[Value],
        targets: &[Block],
    ) -> Result<Inst, GraphFault>
        ensures says { outcome result (state (graph_of self.new.defs) (T.meaning table.new)) ≡ make_inst opcode operands.now targets.now (state (graph_of self.old.defs) (T.meaning table.old)) }
        ensures kept { Kept result self.old.defs self.new.defs }
        ensures table { Unchanged result table.old table.new }
    {
        insts::make::make_inst(&mut self.defs, table, opcode, operands, targets)
    }

    // A copy of an instruction, its calls with it, and new results of the types that its results have.
    pub fn clone_inst<T: InstTable>(
        &mut self,
        table: &mut T,
        inst: Inst,
    ) -> Result<Inst, GraphFault>
        ensures says { outcome result (state (graph_of self.new.defs) (T.meaning table.new)) ≡ clone_inst inst (state (graph_of self.old.defs) (T.meaning table.old)) }
        ensures kept { Kept result self.old.defs self.new.defs }
        ensures table { Unchanged result table.old table.new }
    {
        insts::clone::clone_inst(&mut self.defs, table, inst)
    }
}
