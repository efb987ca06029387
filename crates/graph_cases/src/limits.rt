use crate::checks::{counts, has_params};
use crate::memory::on_graph;
use graph::graph::DataFlowGraph;
use ir::entities::{Block, Inst, Opcode, Type, Value};
use ir::value_data::ValueDef;
use model::fault::GraphFault;
use rows::cell::RowCell;
use rows::store::Rows;
use std::process::Abort;
use std::test::Fail;
use store::parts::PoolFault;

// Neither a value nor a block more than there may be.
fn full(rt: &impl Abort, graph: &mut DataFlowGraph<'_>) {
    assert!(rt; graph.make_block() == Ok(Block(0)));
    assert!(rt; graph.make_block() == Ok(Block(1)));
    assert!(rt; graph.make_block() == Err(GraphFault::Full(2)));
    assert!(rt; graph.append_block_param(Block(0), Type(5)) == Ok(Value(0)));
    assert!(rt; graph.append_block_param(Block(1), Type(5)) == Ok(Value(1)));
    assert!(rt; graph.append_block_param(Block(1), Type(5)) == Err(GraphFault::Full(2)));
    assert!(rt; graph.replace_block_param(Value(0), Type(5)) == Err(GraphFault::Full(2)));
    has_params(rt, graph, 0, &[Value(0)]);
    counts(rt, graph, 2, 2, 0);
}

// Two blocks of four cells, one of which is given back.
fn no_cells(rt: &impl Abort, graph: &mut DataFlowGraph<'_>) {
    let mut rows = [RowCell::EMPTY; 2];
    let mut table = Rows::new(&mut rows, &mut []);
    let none = GraphFault::Pool(PoolFault::NoBlock(4));
    assert!(rt; graph.make_block() == Ok(Block(0)));
    assert!(rt; graph.append_block_param(Block(0), Type(5)) == Ok(Value(0)));
    let targets = [Block(0), Block(0)];
    assert!(rt; graph.make_inst(&mut table, Opcode(1), &[], &targets) == Err(none));
    assert!(rt; graph.make_inst(&mut table, Opcode(1), &[], &[]) == Ok(Inst(0)));
    assert!(rt; graph.make_inst_results(Inst(0), &[Type(5)], &[]) == Ok(1));
    assert!(rt; graph.clone_inst(&mut table, Inst(0)) == Err(none));
    assert!(rt; graph.make_block() == Ok(Block(1)));
    assert!(rt; graph.append_block_param(Block(1), Type(5)) == Err(none));
    assert!(rt; graph.remove_block_param(Value(0)) == Ok(()));
    assert!(rt; graph.attach_block_param(Block(1), Value(0)) == Ok(()));
    has_params(rt, graph, 1, &[Value(0)]);
    counts(rt, graph, 2, 2, 1);
}

// A list grows to 65,536 parameters and no further, with room for more.
fn longest_params(rt: &impl Abort, graph: &mut DataFlowGraph<'_>) {
    assert!(rt; graph.make_block() == Ok(Block(0)));
    assert!(rt; graph.num_block_params(Block(0)) == Ok(0));
    for n in 0..65536u32 {
        assert!(rt; graph.append_block_param(Block(0), Type(5)) == Ok(Value(n)));
        assert!(rt; graph.num_block_params(Block(0)) == Ok(n + 1));
    }
    assert!(rt; graph.append_block_param(Block(0), Type(5)) == Err(GraphFault::Long));
    assert!(rt; graph.value_def(Value(65535)) == Ok(ValueDef::Param(Block(0), 65535)));
    assert!(rt; graph.remove_block_param(Value(3)) == Ok(()));
    assert!(rt; graph.value_def(Value(65535)) == Ok(ValueDef::Param(Block(0), 65534)));
    assert!(rt; graph.attach_block_param(Block(0), Value(3)) == Ok(()));
    assert!(rt; graph.value_def(Value(3)) == Ok(ValueDef::Param(Block(0), 65535)));
    counts(rt, graph, 65536, 1, 0);
}

// Results of the lengths around those of blocks, and of the longest list.
fn longest_results(rt: &impl Abort, graph: &mut DataFlowGraph<'_>, types: &[Type]) {
    let mut rows = [RowCell::EMPTY; 1];
    let mut table = Rows::new(&mut rows, &mut []);
    assert!(rt; types.len() == 65537);
    assert!(rt; graph.make_inst(&mut table, Opcode(1), &[], &[]) == Ok(Inst(0)));
    assert!(rt; graph.make_inst_results(Inst(0), types, &[]) == Err(GraphFault::Long));
    for n in [0, 1, 3, 4, 5, 65535, 65536] {
        assert!(rt; graph.make_inst_results(Inst(0), &types[..n], &[]) == Ok(n));
        assert!(rt;
            graph
                .inst_results(Inst(0))
                .is_ok_and(|results| results.len() == n)
        );
    }
    assert!(rt; graph.make_inst_results(Inst(0), types, &[]) == Err(GraphFault::Long));
    assert!(rt;
        graph
            .inst_results(Inst(0))
            .is_ok_and(|results| results.len() == 65536)
    );
    counts(rt, graph, 131084, 0, 1);
}

#[test]
fn full_tables(rt: HostRuntime) -> Result<(), Fail> {
    on_graph(&rt, 2, 32, |graph| full(&rt, graph))
}

#[test]
fn full_pool(rt: HostRuntime) -> Result<(), Fail> {
    on_graph(&rt, 8, 8, |graph| no_cells(&rt, graph))
}

#[test]
fn params(rt: HostRuntime) -> Result<(), Fail> {
    on_graph(&rt, 65540, 262144, |graph| longest_params(&rt, graph))
}

#[test]
fn results(rt: HostRuntime) -> Result<(), Fail> {
    let types = vec![in rt.alloc(); Type(5); 65537]?;
    on_graph(&rt, 196630, 262144, |graph| {
        longest_results(&rt, graph, types.as_slice())
    })
}
