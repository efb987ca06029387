// A renaming that is written out.
ghost use Rattle.std.specs.Prelude.{◌≡◌};
ghost use Rattle.renaming.specs.Renames.{first_for, first_fit};

use crate::renaming::Renaming;
use ir::entities::Value;

#[derive(Clone, Copy)]
pub struct Pair {
    pub from: Value,
    pub to: Value,
}

// The first pair that fits a value renames it; a value that none fits stays.
#[derive(Clone, Copy)]
pub struct Pairs<'a> {
    pub pairs: &'a [Pair],
}

// The first pair for v.
fn first_pair(pairs: &[Pair], v: Value) -> Option<Pair>
    ensures { result ≡ first_for pairs.now v }
{
    pairs.iter().copied().find(|pair| pair.from == v)
}

impl<'a> Renaming for Pairs<'a> {
    ghost renamed = { λ s v. first_fit s.pairs.now v };

    fn rename(&self, v: Value) -> Value {
        first_pair(self.pairs, v).map_or(v, |pair| pair.to)
    }
}
