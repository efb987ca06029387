use ir::entities::Value;
use ir::value_data::ValueDataPacked;
use model::labels::{Label, Start};
use store::parts::ListMemory;

// What a graph is lent: definitions and labels, one of each for a value, and the memory of its two pools.
#[derive(Drop)]
pub struct GraphMemory<'a> {
    pub values: &'a mut [ValueDataPacked],
    pub labels: &'a mut [Option<Label>],
    pub words: ListMemory<'a, Value>,
    pub starts: ListMemory<'a, Start>,
}
