#![tactic(auto)]

// The lines of a log: reading them, running them, and writing them down with what came of them.
pub mod command;
pub mod counting;
pub mod counts;
pub mod expected;
pub mod outcome;
pub mod printing;
pub mod reading;
pub mod running;
