#![tactic(auto)]

pub mod cell;
pub mod storage;
pub mod store;
