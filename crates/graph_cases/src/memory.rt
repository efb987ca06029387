use defs::memory::GraphMemory;
use graph::graph::DataFlowGraph;
use ir::entities::Value;
use ir::value_data::ValueDataPacked;
use model::labels::Start;
use std::test::Fail;
use store::parts::{Head, ListMemory};

// Makes a new graph of up to so many values, two blocks and two instructions, with so many cells for their lists, and
// hands it to a case.
pub(crate) fn on_graph<F: FnOnce(&mut DataFlowGraph<'_>)>(
    rt: &HostRuntime,
    values: usize,
    cells: usize,
    case: F,
) -> Result<(), Fail>
    requires { F.IsAlwaysCallable case }
{
    let mut packed = vec![in rt.alloc(); ValueDataPacked::RETIRED; values]?;
    let mut labels = vec![in rt.alloc(); None; values]?;
    let mut words = vec![in rt.alloc(); Value(0); cells]?;
    let mut chains = vec![in rt.alloc(); 0; cells / 4]?;
    let mut heads = [Head::EMPTY; 8];
    let mut starts = [Start { from: 0, label: 0 }; 4];
    let mut start_heads = vec![in rt.alloc(); Head::EMPTY; values]?;
    let memory = GraphMemory {
        values: packed.as_mut_slice(),
        labels: labels.as_mut_slice(),
        words: ListMemory {
            cells: words.as_mut_slice(),
            chains: chains.as_mut_slice(),
            heads: &mut heads,
        },
        starts: ListMemory {
            cells: &mut starts,
            chains: &mut [0],
            heads: start_heads.as_mut_slice(),
        },
    };
    case(&mut DataFlowGraph::new(memory, 2));
    Ok(())
}
