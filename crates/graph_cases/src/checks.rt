use graph::graph::DataFlowGraph;
use ir::entities::{Block, Inst, Type, Value};
use std::process::Abort;

// A block has just these parameters.
pub(crate) fn has_params(rt: &impl Abort, graph: &DataFlowGraph<'_>, block: u32, values: &[Value]) {
    assert!(rt;
        graph
            .block_params(Block(block))
            .is_ok_and(|params| params == values)
    );
}

// An instruction has just these results.
pub(crate) fn has_results(rt: &impl Abort, graph: &DataFlowGraph<'_>, inst: u32, values: &[Value]) {
    assert!(rt;
        graph
            .inst_results(Inst(inst))
            .is_ok_and(|results| results == values)
    );
}

pub(crate) fn has_type(rt: &impl Abort, graph: &DataFlowGraph<'_>, value: u32, ty: u16) {
    assert!(rt; graph.value_type(Value(value)) == Ok(Type(ty)));
}

// So many values, blocks and instructions were made.
pub(crate) fn counts(
    rt: &impl Abort,
    graph: &DataFlowGraph<'_>,
    values: u32,
    blocks: u32,
    insts: u32,
) {
    assert!(rt; graph.num_values() == values && graph.num_blocks() == blocks);
    assert!(rt; graph.num_insts() == insts);
}
