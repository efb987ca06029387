#![tactic(auto)]

// Cases of both instruction tables, and of one as a user writes it, as tests.
#[cfg(test)]
mod calls;
#[cfg(test)]
mod handed_on;
#[cfg(test)]
mod own_table;
#[cfg(test)]
mod tests;
