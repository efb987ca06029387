#![tactic(auto)]

// Cases of the graph's calls, over both kinds of table, as tests.
#[cfg(test)]
mod checks;
#[cfg(test)]
mod inst_edits;
#[cfg(test)]
mod limits;
#[cfg(test)]
mod memory;
#[cfg(test)]
mod param_edits;
#[cfg(test)]
mod result_edits;
