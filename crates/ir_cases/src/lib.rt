#![tactic(auto)]

// Cases of the packing, at its edges.
#[cfg(test)]
mod arguments;
#[cfg(test)]
mod definitions;
