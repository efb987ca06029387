ghost use Rattle.std.proofs.Common.{rules};
ghost use Rattle.table.specs.declared.fault.TableFault.TheVariants.{Unknown, Full};
ghost use Rattle.table.specs.Refusals.{refusal};

use ir::fault::{Fault, Layer};
use ir::reason::Reason;

// Why a table refuses a call.
#[derive(Clone, Copy, PartialEq, Eq)]
pub enum TableFault {
    // An instruction or a place that does not exist.
    Unknown(u32),
    // A limit that is reached.
    Full(u32),
}

impl Fault for TableFault {
    ghost told = { refusal };

    ghost numbered = { elim [ Unknown n ↦ Prim.search rules | Full n ↦ Prim.search rules ] };

    fn reason(self) -> Reason {
        match self {
            TableFault::Unknown(_) => Reason::Unknown,
            TableFault::Full(_) => Reason::Full,
        }
    }

    fn layer(self) -> Layer {
        Layer::Table
    }

    fn detail(self) -> u32 {
        match self {
            TableFault::Unknown(n) => n,
            TableFault::Full(limit) => limit,
        }
    }
}
