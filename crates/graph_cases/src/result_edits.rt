use crate::checks::{counts, has_results, has_type};
use crate::memory::on_graph;
use graph::graph::DataFlowGraph;
use ir::entities::{Block, Inst, Opcode, Type, Value};
use ir::fault::PackFault;
use model::fault::GraphFault;
use rows::cell::RowCell;
use rows::store::Rows;
use std::process::Abort;
use std::test::Fail;

// A parameter of type 5, and an instruction with results of the types 5, 6 and 5.
fn made(rt: &impl Abort, graph: &mut DataFlowGraph<'_>) {
    let mut rows = [RowCell::EMPTY; 1];
    let mut table = Rows::new(&mut rows, &mut []);
    assert!(rt; graph.make_block() == Ok(Block(0)));
    assert!(rt; graph.append_block_param(Block(0), Type(5)) == Ok(Value(0)));
    assert!(rt; graph.make_inst(&mut table, Opcode(1), &[], &[]) == Ok(Inst(0)));
    assert!(rt; !graph.has_results(Inst(0)));
    let types = [Type(5), Type(6), Type(5)];
    assert!(rt; graph.make_inst_results(Inst(0), &types, &[]) == Ok(3));
    has_results(rt, graph, 0, &[Value(1), Value(2), Value(3)]);
    counts(rt, graph, 4, 1, 1);
}

fn replaced(rt: &impl Abort, graph: &mut DataFlowGraph<'_>) {
    made(rt, graph);
    let wide = GraphFault::Packing(PackFault::Wide(16384));
    assert!(rt; graph.replace_result(Value(4), Type(16384)) == Err(GraphFault::Unknown(4)));
    assert!(rt; graph.replace_result(Value(2), Type(16384)) == Err(wide));
    assert!(rt; graph.replace_result(Value(0), Type(9)) == Err(GraphFault::Kind(0)));
    assert!(rt; graph.replace_result(Value(2), Type(9)) == Ok(Value(4)));
    assert!(rt; graph.replace_result(Value(2), Type(9)) == Err(GraphFault::Loose(2)));
    has_results(rt, graph, 0, &[Value(1), Value(4), Value(3)]);
    has_type(rt, graph, 4, 9);
    has_type(rt, graph, 2, 6);
}

fn cleared(rt: &impl Abort, graph: &mut DataFlowGraph<'_>) {
    made(rt, graph);
    assert!(rt; graph.first_result(Inst(0)) == Ok(Value(1)));
    assert!(rt; graph.clear_results(Inst(0)) == Ok(()));
    assert!(rt; !graph.has_results(Inst(0)));
    assert!(rt; graph.first_result(Inst(0)) == Err(GraphFault::Unknown(0)));
    assert!(rt; graph.clear_results(Inst(0)) == Ok(()));
    assert!(rt; graph.clear_results(Inst(1)) == Err(GraphFault::Unknown(1)));
    assert!(rt; graph.first_result(Inst(1)) == Err(GraphFault::Unknown(1)));
    assert!(rt; graph.replace_result(Value(1), Type(5)) == Err(GraphFault::Loose(1)));
    counts(rt, graph, 4, 1, 1);
}

// Values to reuse: results of the same instruction, in any order, and loose ones.
fn reused(rt: &impl Abort, graph: &mut DataFlowGraph<'_>) {
    made(rt, graph);
    let types = [Type(6), Type(5), Type(5)];
    let reuse = [Some(Value(2)), None, Some(Value(1))];
    assert!(rt; graph.make_inst_results(Inst(0), &types, &reuse) == Ok(3));
    has_results(rt, graph, 0, &[Value(2), Value(4), Value(1)]);
    // Value 3 is loose now, and no longer a result of the place that it names.
    assert!(rt; !graph.value_is_attached(Value(3)));
    assert!(rt; graph.make_inst_results(Inst(0), &[Type(5)], &[Some(Value(3))]) == Ok(1));
    has_results(rt, graph, 0, &[Value(3)]);
    // What stands past the types is not looked at.
    let past = [Some(Value(2)), Some(Value(99))];
    assert!(rt; graph.make_inst_results(Inst(0), &[Type(6)], &past) == Ok(1));
    has_results(rt, graph, 0, &[Value(2)]);
    counts(rt, graph, 5, 1, 1);
}

fn not_reused(rt: &impl Abort, graph: &mut DataFlowGraph<'_>) {
    made(rt, graph);
    let wide = GraphFault::Packing(PackFault::Wide(16384));
    let two = [Type(5), Type(5)];
    assert!(rt;
        graph.make_inst_results(Inst(1), &two, &[Some(Value(9))]) == Err(GraphFault::Unknown(1))
    );
    assert!(rt;
        graph.make_inst_results(Inst(0), &two, &[Some(Value(9))]) == Err(GraphFault::Unknown(9))
    );
    assert!(rt; graph.make_inst_results(Inst(0), &[Type(5), Type(16384)], &[]) == Err(wide));
    assert!(rt;
        graph.make_inst_results(Inst(0), &two, &[Some(Value(0))]) == Err(GraphFault::Attached(0))
    );
    assert!(rt;
        graph.make_inst_results(Inst(0), &two, &[Some(Value(2))]) == Err(GraphFault::Types(2))
    );
    let again = [Some(Value(3)), Some(Value(3))];
    assert!(rt; graph.make_inst_results(Inst(0), &two, &again) == Err(GraphFault::Twice(3)));
    let apart = [Some(Value(3)), None, Some(Value(3))];
    let three = [Type(5), Type(5), Type(5)];
    assert!(rt; graph.make_inst_results(Inst(0), &three, &apart) == Err(GraphFault::Twice(3)));
    has_results(rt, graph, 0, &[Value(1), Value(2), Value(3)]);
    counts(rt, graph, 4, 1, 1);
}

#[test]
fn replacing(rt: HostRuntime) -> Result<(), Fail> {
    on_graph(&rt, 8, 32, |graph| replaced(&rt, graph))
}

#[test]
fn clearing(rt: HostRuntime) -> Result<(), Fail> {
    on_graph(&rt, 8, 32, |graph| cleared(&rt, graph))
}

#[test]
fn reusing(rt: HostRuntime) -> Result<(), Fail> {
    on_graph(&rt, 8, 32, |graph| reused(&rt, graph))
}

#[test]
fn refusals(rt: HostRuntime) -> Result<(), Fail> {
    on_graph(&rt, 8, 32, |graph| not_reused(&rt, graph))
}
