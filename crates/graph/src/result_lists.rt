ghost use Rattle.std.specs.Prelude.{◌≡◌, Ok, Err};
ghost use Rattle.model.specs.Refusals.{outcome};
ghost use Rattle.model.specs.Edits.{clear_results, make_inst_results, replace_result};
ghost use Rattle.results.specs.Reads.{first_result_answer, has_results_answer, results_answer};
ghost use Rattle.defs.specs.Graphs.{Kept, graph_of};

use crate::graph::DataFlowGraph;
use ir::entities::{Inst, Type, Value};
use model::fault::GraphFault;

impl<'a> DataFlowGraph<'a> {
    // New results of an instruction, of those types; a value to reuse stands where one is given. Answers how many.
    pub fn make_inst_results(
        &mut self,
        inst: Inst,
        types: &[Type],
        reuse: &[Option<Value>],
    ) -> Result<usize, GraphFault>
        ensures says { outcome result (graph_of self.new.defs) ≡ make_inst_results inst types.now reuse.now (graph_of self.old.defs) }
        ensures kept { Kept result self.old.defs self.new.defs }
    {
        results::make::make_inst_results(&mut self.defs, inst, types, reuse)
    }

    // Empties the list of results; the definitions stay.
    pub fn clear_results(&mut self, inst: Inst) -> Result<(), GraphFault>
        ensures says { outcome result (graph_of self.new.defs) ≡ clear_results inst (graph_of self.old.defs) }
        ensures kept { Kept result self.old.defs self.new.defs }
    {
        results::clear::clear_results(&mut self.defs, inst)
    }

    // A new result in the place of another, which is left loose.
    pub fn replace_result(&mut self, v: Value, ty: Type) -> Result<Value, GraphFault>
        ensures says { outcome result (graph_of self.new.defs) ≡ replace_result v ty (graph_of self.old.defs) }
        ensures kept { Kept result self.old.defs self.new.defs }
    {
        results::replace::replace_result(&mut self.defs, v, ty)
    }

    // The results of an instruction.
    pub fn inst_results(&self, inst: Inst) -> Result<&[Value], GraphFault>
        ensures { elim result [ Ok vs ↦ results_answer (graph_of self.now.defs) inst ≡ Ok vs.now | Err f ↦ results_answer (graph_of self.now.defs) inst ≡ Err f ] }
    {
        results::reads::inst_results(&self.defs, inst)
    }

    // The first result of an instruction; of one that has none, place 0 does not exist.
    pub fn first_result(&self, inst: Inst) -> Result<Value, GraphFault>
        ensures { result ≡ first_result_answer (graph_of self.now.defs) inst }
    {
        results::reads::first_result(&self.defs, inst)
    }

    // Whether an instruction has results; an unknown one has none.
    pub fn has_results(&self, inst: Inst) -> bool
        ensures { result ≡ has_results_answer (graph_of self.now.defs) inst }
    {
        results::reads::has_results(&self.defs, inst)
    }
}
