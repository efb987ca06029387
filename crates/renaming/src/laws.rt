// What the two renamings are, in the words of pairs that fit and of values that lead somewhere.
ghost use Rattle.renaming.specs.Renames.{FirstFits, NoneFits, EndReached, StaysPut};

// A pair list renames a value by the first pair that fits, and keeps a value that none fits.
#[tactic(auto, using(crate::proofs::Fits::first_fits, crate::proofs::Fits::none_fits))]
pub fn pairs_laws() -> u8
    ensures fits { FirstFits }
    ensures stays { NoneFits }
{
    0
}

// The alias resolver renames a value to what it leads to, and keeps a value that leads nowhere.
#[tactic(auto, using(crate::proofs::Ends::end_reached, crate::proofs::Ends::stays_put))]
pub fn aliases_laws() -> u8
    ensures leads { EndReached }
    ensures stays { StaysPut }
{
    0
}
