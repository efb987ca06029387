use crate::checks::{counts, has_results, has_type};
use crate::memory::on_graph;
use chain::cell::{ChainRow, Link};
use chain::store::Chain;
use graph::graph::DataFlowGraph;
use ir::entities::{Block, Inst, Opcode, Type, Value};
use model::fault::GraphFault;
use rows::cell::RowCell;
use rows::store::Rows;
use std::process::Abort;
use std::test::Fail;
use table::fault::TableFault;
use table::inst_table::InstTable;

// A block with a parameter, and an instruction that uses it twice, calls the block, and has two results.
fn made<T: InstTable>(rt: &impl Abort, graph: &mut DataFlowGraph<'_>, table: &mut T) {
    let operands = [Value(0), Value(0)];
    assert!(rt; graph.make_block() == Ok(Block(0)));
    assert!(rt; graph.append_block_param(Block(0), Type(5)) == Ok(Value(0)));
    assert!(rt; graph.make_inst(table, Opcode(7), &operands, &[Block(0)]) == Ok(Inst(0)));
    assert!(rt; graph.make_inst_results(Inst(0), &[Type(5), Type(6)], &[]) == Ok(2));
    counts(rt, graph, 3, 1, 1);
}

// A copy has results of its own, of the same types.
fn cloned<T: InstTable>(rt: &impl Abort, graph: &mut DataFlowGraph<'_>, table: &mut T) {
    made(rt, graph, table);
    assert!(rt; graph.clone_inst(table, Inst(1)) == Err(GraphFault::Unknown(1)));
    assert!(rt; graph.clone_inst(table, Inst(0)) == Ok(Inst(1)));
    has_results(rt, graph, 0, &[Value(1), Value(2)]);
    has_results(rt, graph, 1, &[Value(3), Value(4)]);
    has_type(rt, graph, 3, 5);
    has_type(rt, graph, 4, 6);
    assert!(rt; table.opcode(Inst(1)) == Ok(Opcode(7)) && table.operand_count(Inst(1)) == Ok(2));
    assert!(rt; table.operand(Inst(1), 1) == Ok(Value(0)));
    counts(rt, graph, 5, 1, 2);
}

// The graph's limit of instructions comes before the table's.
fn refused<T: InstTable>(rt: &impl Abort, graph: &mut DataFlowGraph<'_>, table: &mut T) {
    made(rt, graph, table);
    let targets = [Block(0), Block(0), Block(0)];
    assert!(rt;
        graph.make_inst(table, Opcode(1), &[Value(3)], &targets) == Err(GraphFault::Unknown(3))
    );
    assert!(rt; graph.make_inst(table, Opcode(1), &[], &[Block(1)]) == Err(GraphFault::Unknown(1)));
    assert!(rt; graph.make_inst(table, Opcode(1), &[], &targets) == Err(GraphFault::Count(3)));
    assert!(rt; graph.make_inst(table, Opcode(1), &[], &targets[..2]) == Ok(Inst(1)));
    assert!(rt; graph.make_inst(table, Opcode(1), &[], &[]) == Err(GraphFault::Full(2)));
    assert!(rt; graph.clone_inst(table, Inst(1)) == Err(GraphFault::Full(2)));
    // A table that other hands have changed no longer goes with the graph.
    assert!(rt; table.add(Opcode(1), &[]) == Ok(Inst(2)));
    assert!(rt; graph.make_inst(table, Opcode(1), &[], &[]) == Err(GraphFault::Count(3)));
    assert!(rt; graph.clone_inst(table, Inst(0)) == Err(GraphFault::Count(3)));
    counts(rt, graph, 3, 1, 2);
}

// What the table refuses travels whole.
fn full_table<T: InstTable>(rt: &impl Abort, graph: &mut DataFlowGraph<'_>, table: &mut T) {
    made(rt, graph, table);
    let operands = [Value(0)];
    let full = GraphFault::Table(TableFault::Full(2));
    assert!(rt; graph.make_inst(table, Opcode(1), &operands, &[]) == Err(full));
    assert!(rt; graph.clone_inst(table, Inst(0)) == Err(full));
    assert!(rt; graph.make_inst(table, Opcode(1), &[], &[]) == Ok(Inst(1)));
    counts(rt, graph, 3, 1, 2);
    assert!(rt; table.count() == 2 && table.operand_total() == 2);
}

#[test]
fn rows_cloning(rt: HostRuntime) -> Result<(), Fail> {
    on_graph(&rt, 8, 32, |graph| {
        cloned(
            &rt,
            graph,
            &mut Rows::new(&mut [RowCell::EMPTY; 3], &mut [Value(0); 8]),
        )
    })
}

#[test]
fn chain_cloning(rt: HostRuntime) -> Result<(), Fail> {
    on_graph(&rt, 8, 32, |graph| {
        cloned(
            &rt,
            graph,
            &mut Chain::new(&mut [ChainRow::EMPTY; 3], &mut [Link::EMPTY; 8]),
        )
    })
}

#[test]
fn rows_refusals(rt: HostRuntime) -> Result<(), Fail> {
    on_graph(&rt, 8, 32, |graph| {
        refused(
            &rt,
            graph,
            &mut Rows::new(&mut [RowCell::EMPTY; 3], &mut [Value(0); 8]),
        )
    })
}

#[test]
fn chain_refusals(rt: HostRuntime) -> Result<(), Fail> {
    on_graph(&rt, 8, 32, |graph| {
        refused(
            &rt,
            graph,
            &mut Chain::new(&mut [ChainRow::EMPTY; 3], &mut [Link::EMPTY; 8]),
        )
    })
}

#[test]
fn rows_full(rt: HostRuntime) -> Result<(), Fail> {
    on_graph(&rt, 8, 32, |graph| {
        full_table(
            &rt,
            graph,
            &mut Rows::new(&mut [RowCell::EMPTY; 2], &mut [Value(0); 2]),
        )
    })
}

#[test]
fn chain_full(rt: HostRuntime) -> Result<(), Fail> {
    on_graph(&rt, 8, 32, |graph| {
        full_table(
            &rt,
            graph,
            &mut Chain::new(&mut [ChainRow::EMPTY; 2], &mut [Link::EMPTY; 2]),
        )
    })
}
