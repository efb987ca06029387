// Classes of blocks: 0 is no block, and class k + 1 has 2^k units of four cells.
ghost use Rattle.std.specs.Prelude.{◌≡◌, ℕ, ◌+◌, ◌-◌, ◌*◌, ◌^◌, ◌<◌, ◌≤◌, nat_le};
ghost use Rattle.store.specs.Units.{smallest, units};

// The units of a block of a class.
#[tactic(auto, using(crate::proofs::Views::units_shl, crate::proofs::Views::none_units))]
pub(crate) fn units_of(class: u32) -> u32
    requires { class ≤ 29 }
    ensures { result ≡ units class }
{
    if class == 0 { 0 } else { 1u32 << (class - 1) }
}

// Whether a block of a class holds n items.
fn holds(class: u32, n: usize) -> bool
    requires { class ≤ 29 }
    ensures { result ≡ nat_le n (4 * units class) }
{
    n <= 4 * units_of(class) as usize
}

// The smallest class that holds n items; 30 where none does, a class of which no block can be had. As a number it is what
// the loop counts: 0 items want no block, and past the last class the loop has counted to 30.
#[tactic(auto, using(crate::proofs::Models::class_hit, crate::proofs::Models::class_miss, crate::proofs::Models::class_end, crate::proofs::Models::class_start))]
pub(crate) fn class_for(n: usize) -> u32
    ensures { result ≡ smallest n }
{
    for class in 0..30 {
        if holds(class, n) {
            return class;
        }
    }
    30
}
