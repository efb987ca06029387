use ir::entities::Value;

// From a place of the source on, a value holds what a label names.
#[derive(Clone, Copy)]
pub struct Start {
    pub from: u32,
    pub label: u32,
}

// What is kept of a value's label, where it has one; the starts lie in a list of their own.
#[derive(Clone, Copy)]
pub enum Label {
    Starts,
    Alias { from: u32, value: Value },
}
