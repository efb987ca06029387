ghost use Rattle.std.proofs.Common.{rules};
ghost use Rattle.ir.specs.declared.fault.PackFault.TheVariants.{Tag, Wide};
ghost use Rattle.ir.specs.Refusals.{refusal};

use crate::fault::{Fault, Layer, PackFault};
use crate::reason::Reason;

impl Fault for PackFault {
    ghost told = { refusal };

    ghost numbered = { elim [ Wide n ↦ Prim.search rules | Tag w ↦ Prim.search rules ] };

    fn reason(self) -> Reason {
        match self {
            PackFault::Wide(_) => Reason::Wide,
            PackFault::Tag(_) => Reason::Tag,
        }
    }

    fn layer(self) -> Layer {
        Layer::Packing
    }

    fn detail(self) -> u32 {
        match self {
            PackFault::Wide(found) | PackFault::Tag(found) => found,
        }
    }
}
