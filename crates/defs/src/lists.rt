// The numbers of the lists: first those of the blocks, then three for each instruction, its results and its two calls.
ghost use Rattle.std.specs.Prelude.{◌≡◌, ◌<◌, length};
ghost use Rattle.model.specs.State.{call_list, result_list};
ghost use Rattle.defs.specs.Graphs.{graph_of};

use crate::state::Defs;
use ir::entities::Inst;

impl<'a> Defs<'a> {
    // The list of an instruction's results, which is to be a list.
    pub fn result_list(&self, inst: Inst) -> u32
        requires { result_list (graph_of self.now) inst < length (graph_of self.now).words.lists }
        ensures says { result ≡ result_list (graph_of self.now) inst }
        ensures within { result < length (graph_of self.now).words.lists }
    {
        self.block_limit + 3 * inst.0
    }

    // The list of one of its two calls.
    pub fn call_list(&self, inst: Inst, place: u32) -> u32
        requires below { inst.0 < (graph_of self.now).limits.insts }
        requires few { place < 2 }
        ensures says { result ≡ call_list (graph_of self.now) inst place }
        ensures within { result < length (graph_of self.now).words.lists }
    {
        self.block_limit + (3 * inst.0 + (1 + place))
    }
}
