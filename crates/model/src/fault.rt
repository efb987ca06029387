ghost use Rattle.std.specs.Prelude.{◌≡◌};
ghost use Rattle.model.specs.declared.fault.GraphFault.TheVariants.{Packing, Pool, Table};

use ir::fault::PackFault;
use store::parts::PoolFault;
use table::fault::TableFault;

// Why the graph refuses a call. What a layer below refuses travels whole.
#[derive(Clone, Copy, PartialEq, Eq)]
pub enum GraphFault {
    // A number or place that does not exist.
    Unknown(u32),
    // A value that is retired.
    Retired(u32),
    // Not a result, or not a parameter.
    Kind(u32),
    // Not attached.
    Loose(u32),
    // Attached where it may not be.
    Attached(u32),
    // Types that differ, or, in aliasings, have no type.
    Types(u32),
    // An alias of itself.
    Loop(u32),
    // A list, a memory or a count of another length.
    Count(u32),
    // A union with a live alias as a side.
    Side(u32),
    // A value named twice.
    Twice(u32),
    // A limit of the graph that is reached.
    Full(u32),
    // A list that would pass 65,536.
    Long,
    Packing(PackFault),
    Pool(PoolFault),
    Table(TableFault),
}

impl From<PackFault> for GraphFault {
    ghost from_gives = { λ e r. r ≡ Packing e };

    fn from(fault: PackFault) -> GraphFault {
        GraphFault::Packing(fault)
    }
}

impl From<PoolFault> for GraphFault {
    ghost from_gives = { λ e r. r ≡ Pool e };

    fn from(fault: PoolFault) -> GraphFault {
        GraphFault::Pool(fault)
    }
}

impl From<TableFault> for GraphFault {
    ghost from_gives = { λ e r. r ≡ Table e };

    fn from(fault: TableFault) -> GraphFault {
        GraphFault::Table(fault)
    }
}
