ghost use Rattle.std.proofs.Common.{rules};
ghost use Rattle.store.specs.declared.parts.PoolFault.TheVariants.{NoBlock, Unknown};
ghost use Rattle.store.specs.Faults.{refusal};

use crate::parts::PoolFault;
use ir::fault::{Fault, Layer};
use ir::reason::Reason;

impl Fault for PoolFault {
    ghost told = { refusal };

    ghost numbered = { elim [ Unknown n ↦ Prim.search rules | NoBlock n ↦ Prim.search rules ] };

    fn reason(self) -> Reason {
        match self {
            PoolFault::Unknown(_) => Reason::Unknown,
            PoolFault::NoBlock(_) => Reason::NoBlock,
        }
    }

    fn layer(self) -> Layer {
        Layer::Pool
    }

    // The list number or place that does not exist, or the cells or length wanted.
    fn detail(self) -> u32 {
        match self {
            PoolFault::Unknown(n) | PoolFault::NoBlock(n) => n,
        }
    }
}
