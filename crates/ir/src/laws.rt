// Theorems about the definitions that the other modules' contracts cite.
ghost use Rattle.ir.specs.Cases.{Worked};

// The worked values of the packing hold, all together.
pub fn worked_values() -> u8
    ensures { Worked }
{
    0
}
