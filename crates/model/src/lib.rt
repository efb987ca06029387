#![tactic(auto)]

// What a graph is, what each edit does and when it is refused, and the laws over runs of edits.
pub mod cases;
pub mod fault;
pub mod labels;
pub mod laws;
pub mod refusals;
