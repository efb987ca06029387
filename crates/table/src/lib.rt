#![tactic(auto)]

pub mod calls;
pub mod drive;
pub mod extent;
pub mod fault;
pub mod inst_table;
pub mod left;
pub mod room;
pub mod storage;
pub mod stored;
