#![tactic(auto)]

mod blocks;
pub mod calls;
mod cells;
mod classes;
pub mod faults;
mod hand;
mod judges;
pub mod parts;
pub mod sizes;
pub mod store;
mod supply;
