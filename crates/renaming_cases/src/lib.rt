#![tactic(auto)]

// Cases of following aliases and of renaming.
#[cfg(test)]
mod aliases;
#[cfg(test)]
mod pairs;
