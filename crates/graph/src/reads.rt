ghost use Rattle.std.specs.Prelude.{◌≡◌, length, nat_lt, Ok, Err};
ghost use Rattle.model.specs.State.{attached};
ghost use Rattle.defs.specs.Graphs.{graph_of};
ghost use Rattle.queries.specs.Readers.{pairs_left, types_left, unretired_from, values_left, with_sources};
ghost use Rattle.queries.specs.Answers.{alias_answer, num_params_answer, param_types_answer, params_answer, real_answer, resolve_answer, value_def_answer, value_type_answer};

use crate::graph::DataFlowGraph;
use ir::entities::{Block, Inst, Type, Value};
use ir::value_data::ValueDef;
use model::fault::GraphFault;
use queries::readers::{BlockParamTypes, Values, ValuesAndDefs};

impl<'a> DataFlowGraph<'a> {
    // How many values were made.
    pub fn num_values(&self) -> u32
        ensures { result ≡ length (graph_of self.now.defs).defs }
    {
        insts::reads::num_values(&self.defs)
    }

    // How many blocks were made.
    pub fn num_blocks(&self) -> u32
        ensures { result ≡ (graph_of self.now.defs).blocks }
    {
        insts::reads::num_blocks(&self.defs)
    }

    // How many instructions were made.
    pub fn num_insts(&self) -> u32
        ensures { result ≡ (graph_of self.now.defs).insts }
    {
        insts::reads::num_insts(&self.defs)
    }

    // Whether a value exists.
    pub fn value_is_valid(&self, v: Value) -> bool
        ensures { result ≡ nat_lt v.0 (length (graph_of self.now.defs).defs) }
    {
        insts::reads::value_is_valid(&self.defs, v)
    }

    // Whether a block exists.
    pub fn block_is_valid(&self, block: Block) -> bool
        ensures { result ≡ nat_lt block.0 (graph_of self.now.defs).blocks }
    {
        insts::reads::block_is_valid(&self.defs, block)
    }

    // Whether an instruction exists.
    pub fn inst_is_valid(&self, inst: Inst) -> bool
        ensures { result ≡ nat_lt inst.0 (graph_of self.now.defs).insts }
    {
        insts::reads::inst_is_valid(&self.defs, inst)
    }

    // Whether the list of its instruction or block holds a value at its number.
    pub fn value_is_attached(&self, v: Value) -> bool
        ensures { result ≡ attached (graph_of self.now.defs) v }
    {
        self.defs.is_attached(v)
    }

    // Whether a value is an alias; a retired one is, of nothing. An unknown one is not.
    pub fn value_is_alias(&self, v: Value) -> bool
        ensures { result ≡ alias_answer (graph_of self.now.defs) v }
    {
        queries::value_reads::value_is_alias(&self.defs, v)
    }

    // Whether a value exists and is no alias, so not retired either.
    pub fn value_is_real(&self, v: Value) -> bool
        ensures { result ≡ real_answer (graph_of self.now.defs) v }
    {
        queries::value_reads::value_is_real(&self.defs, v)
    }

    // The type of a value; a retired one has none, type 0.
    pub fn value_type(&self, v: Value) -> Result<Type, GraphFault>
        ensures { result ≡ value_type_answer (graph_of self.now.defs) v }
    {
        queries::value_reads::value_type(&self.defs, v)
    }

    // What a value leads to. One that leads nowhere is refused as retired.
    pub fn resolve_aliases(&self, v: Value) -> Result<Value, GraphFault>
        ensures { result ≡ resolve_answer (graph_of self.now.defs) v }
    {
        queries::value_reads::resolve_aliases(&self.defs, v)
    }

    // Where what a value leads to comes from.
    pub fn value_def(&self, v: Value) -> Result<ValueDef, GraphFault>
        ensures { result ≡ value_def_answer (graph_of self.now.defs) v }
    {
        queries::value_reads::value_def(&self.defs, v)
    }

    // The parameters of a block.
    pub fn block_params(&self, block: Block) -> Result<&[Value], GraphFault>
        ensures { elim result [ Ok vs ↦ params_answer (graph_of self.now.defs) block ≡ Ok vs.now | Err f ↦ params_answer (graph_of self.now.defs) block ≡ Err f ] }
    {
        queries::param_reads::block_params(&self.defs, block)
    }

    // How many parameters a block has.
    pub fn num_block_params(&self, block: Block) -> Result<u32, GraphFault>
        ensures { result ≡ num_params_answer (graph_of self.now.defs) block }
    {
        queries::param_reads::num_block_params(&self.defs, block)
    }

    // The types of a block's parameters, in order.
    pub fn block_param_types(&self, block: Block) -> Result<BlockParamTypes<'_>, GraphFault>
        ensures { elim result [ Ok ts ↦ param_types_answer (graph_of self.now.defs) block ≡ Ok (types_left ts) | Err f ↦ param_types_answer (graph_of self.now.defs) block ≡ Err f ] }
    {
        queries::reading::block_param_types(&self.defs, block)
    }

    // The values that are not retired, in order.
    pub fn values(&self) -> Values<'_>
        ensures { values_left result ≡ unretired_from 0 (graph_of self.now.defs).defs }
    {
        queries::reading::values(&self.defs)
    }

    // The same, with where they come from; one that leads nowhere is passed over.
    pub fn values_and_defs(&self) -> ValuesAndDefs<'_>
        ensures { pairs_left result ≡ with_sources (graph_of self.now.defs).defs (unretired_from 0 (graph_of self.now.defs).defs) }
    {
        queries::reading::values_and_defs(&self.defs)
    }
}
