use defs::state::Defs;

// Values, results, block parameters, block calls, aliases and labels, in memory that the caller lends.
#[derive(Drop)]
pub struct DataFlowGraph<'a> {
    pub(crate) defs: Defs<'a>,
}
