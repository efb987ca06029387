use crate::checks::{counts, has_params, has_type};
use crate::memory::on_graph;
use graph::graph::DataFlowGraph;
use ir::entities::{Block, Type, Value};
use ir::fault::PackFault;
use model::fault::GraphFault;
use std::process::Abort;
use std::test::Fail;

// One block with parameters of the types 5, 6 and 7.
fn three(rt: &impl Abort, graph: &mut DataFlowGraph<'_>) {
    assert!(rt; graph.make_block() == Ok(Block(0)));
    assert!(rt; graph.append_block_param(Block(0), Type(5)) == Ok(Value(0)));
    assert!(rt; graph.append_block_param(Block(0), Type(6)) == Ok(Value(1)));
    assert!(rt; graph.append_block_param(Block(0), Type(7)) == Ok(Value(2)));
    has_params(rt, graph, 0, &[Value(0), Value(1), Value(2)]);
}

// The fault that this graph was made against: a removed parameter is named again.
fn removed_is_refused(rt: &impl Abort, graph: &mut DataFlowGraph<'_>) {
    three(rt, graph);
    assert!(rt; graph.remove_block_param(Value(0)) == Ok(()));
    assert!(rt; graph.replace_block_param(Value(0), Type(9)) == Err(GraphFault::Loose(0)));
    assert!(rt; graph.remove_block_param(Value(0)) == Err(GraphFault::Loose(0)));
    assert!(rt; graph.swap_remove_block_param(Value(0)) == Err(GraphFault::Loose(0)));
    has_params(rt, graph, 0, &[Value(1), Value(2)]);
    counts(rt, graph, 3, 1, 0);
    has_type(rt, graph, 0, 5);
    // The later ones have moved up, and are removed from where they are now.
    assert!(rt; graph.replace_block_param(Value(2), Type(9)) == Ok(Value(3)));
    has_params(rt, graph, 0, &[Value(1), Value(3)]);
    assert!(rt; graph.replace_block_param(Value(2), Type(9)) == Err(GraphFault::Loose(2)));
}

// A loose parameter can be attached again, and is then the last one.
fn comes_back(rt: &impl Abort, graph: &mut DataFlowGraph<'_>) {
    three(rt, graph);
    assert!(rt; graph.swap_remove_block_param(Value(0)) == Ok(0));
    has_params(rt, graph, 0, &[Value(2), Value(1)]);
    assert!(rt; graph.attach_block_param(Block(0), Value(0)) == Ok(()));
    has_params(rt, graph, 0, &[Value(2), Value(1), Value(0)]);
    has_type(rt, graph, 0, 5);
    assert!(rt; graph.attach_block_param(Block(0), Value(0)) == Err(GraphFault::Attached(0)));
    assert!(rt; graph.swap_remove_block_param(Value(1)) == Ok(1));
    assert!(rt; graph.swap_remove_block_param(Value(0)) == Ok(1));
    has_params(rt, graph, 0, &[Value(2)]);
}

// Memory that is too short is left alone, and longer memory keeps its rest.
fn detached(rt: &impl Abort, graph: &mut DataFlowGraph<'_>) {
    three(rt, graph);
    let mut short = [Value(70); 2];
    assert!(rt; graph.detach_block_params(Block(0), &mut short) == Err(GraphFault::Count(2)));
    assert!(rt; short == [Value(70); 2]);
    has_params(rt, graph, 0, &[Value(0), Value(1), Value(2)]);
    let mut long = [Value(70); 4];
    assert!(rt; graph.detach_block_params(Block(0), &mut long) == Ok(3));
    assert!(rt; long == [Value(0), Value(1), Value(2), Value(70)]);
    has_params(rt, graph, 0, &[]);
    assert!(rt; graph.detach_block_params(Block(0), &mut []) == Ok(0));
    assert!(rt; graph.detach_block_params(Block(1), &mut []) == Err(GraphFault::Unknown(1)));
}

// Of what holds together, the smallest number is given.
fn refused(rt: &impl Abort, graph: &mut DataFlowGraph<'_>) {
    three(rt, graph);
    let wide = GraphFault::Packing(PackFault::Wide(16384));
    assert!(rt; graph.append_block_param(Block(1), Type(16384)) == Err(GraphFault::Unknown(1)));
    assert!(rt; graph.append_block_param(Block(0), Type(16384)) == Err(wide));
    assert!(rt; graph.attach_block_param(Block(2), Value(9)) == Err(GraphFault::Unknown(2)));
    assert!(rt; graph.attach_block_param(Block(0), Value(9)) == Err(GraphFault::Unknown(9)));
    assert!(rt; graph.replace_block_param(Value(3), Type(16384)) == Err(GraphFault::Unknown(3)));
    assert!(rt; graph.replace_block_param(Value(0), Type(16384)) == Err(wide));
    assert!(rt; graph.remove_block_param(Value(3)) == Err(GraphFault::Unknown(3)));
    assert!(rt; graph.swap_remove_block_param(Value(3)) == Err(GraphFault::Unknown(3)));
    has_params(rt, graph, 0, &[Value(0), Value(1), Value(2)]);
    counts(rt, graph, 3, 1, 0);
}

#[test]
fn removed(rt: HostRuntime) -> Result<(), Fail> {
    on_graph(&rt, 8, 32, |graph| removed_is_refused(&rt, graph))
}

#[test]
fn attached_again(rt: HostRuntime) -> Result<(), Fail> {
    on_graph(&rt, 8, 32, |graph| comes_back(&rt, graph))
}

#[test]
fn detaching(rt: HostRuntime) -> Result<(), Fail> {
    on_graph(&rt, 8, 32, |graph| detached(&rt, graph))
}

#[test]
fn refusals(rt: HostRuntime) -> Result<(), Fail> {
    on_graph(&rt, 8, 32, |graph| refused(&rt, graph))
}
