#![tactic(auto)]

pub mod cell;
pub mod read;
pub mod reader;
pub mod storage;
pub mod store;
