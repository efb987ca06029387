#![tactic(auto)]

pub mod calls;
pub mod laws;
pub mod pool;
