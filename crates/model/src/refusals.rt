ghost use Rattle.model.specs.Refusals.{is_numbered, refusal};

use crate::fault::GraphFault;
use ir::fault::{Fault, Layer};
use ir::reason::Reason;

impl Fault for GraphFault {
    ghost told = { refusal };

    ghost numbered = { is_numbered };

    fn reason(self) -> Reason {
        match self {
            GraphFault::Unknown(_) => Reason::Unknown,
            GraphFault::Retired(_) => Reason::Retired,
            GraphFault::Kind(_) => Reason::Kind,
            GraphFault::Loose(_) => Reason::Loose,
            GraphFault::Attached(_) => Reason::Attached,
            GraphFault::Types(_) => Reason::Types,
            GraphFault::Loop(_) => Reason::Loop,
            GraphFault::Count(_) => Reason::Count,
            GraphFault::Side(_) => Reason::Side,
            GraphFault::Twice(_) => Reason::Twice,
            GraphFault::Full(_) => Reason::Full,
            GraphFault::Long => Reason::Long,
            GraphFault::Packing(fault) => fault.reason(),
            GraphFault::Pool(fault) => fault.reason(),
            GraphFault::Table(fault) => fault.reason(),
        }
    }

    fn layer(self) -> Layer {
        match self {
            GraphFault::Packing(fault) => fault.layer(),
            GraphFault::Pool(fault) => fault.layer(),
            GraphFault::Table(fault) => fault.layer(),
            _ => Layer::Graph,
        }
    }

    fn detail(self) -> u32 {
        match self {
            GraphFault::Unknown(found)
            | GraphFault::Retired(found)
            | GraphFault::Kind(found)
            | GraphFault::Loose(found)
            | GraphFault::Attached(found)
            | GraphFault::Types(found)
            | GraphFault::Loop(found)
            | GraphFault::Count(found)
            | GraphFault::Side(found)
            | GraphFault::Twice(found)
            | GraphFault::Full(found) => found,
            GraphFault::Long => 65536,
            GraphFault::Packing(fault) => fault.detail(),
            GraphFault::Pool(fault) => fault.detail(),
            GraphFault::Table(fault) => fault.detail(),
        }
    }
}
