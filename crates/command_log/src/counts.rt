// How many commands ran, how many were accepted and how many refused.
#[derive(Clone, Copy, PartialEq, Eq)]
pub struct Counts {
    pub calls: usize,
    pub accepted: usize,
    pub refused: usize,
}
