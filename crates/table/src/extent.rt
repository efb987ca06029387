ghost use Rattle.std.specs.Prelude.{◌^◌, ◌≤◌};

// How many instructions and operands there are, and how many there may be.
#[derive(Clone, Copy)]
pub struct Extent {
    pub count: u32,
    pub inst_limit: u32,
    pub operand_total: u32,
    pub operand_limit: u32,
    ghost insts_small: { inst_limit ≤ 2 ^ 30 },
    ghost operands_small: { operand_limit ≤ 2 ^ 30 },
    ghost counted: { count ≤ inst_limit },
    ghost totalled: { operand_total ≤ operand_limit },
}
