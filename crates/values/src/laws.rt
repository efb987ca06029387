// Theorems about what values lead to, on every table of definitions, rings of aliases included.
ghost use Rattle.values.specs.Leads.{WalkFinds, WalkFails, OneEnd, ShortWays, Redirects};

// The bounded walk and the relation "leads to" agree, and a way is unique and shorter than its table.
pub fn leads_laws() -> u8
    ensures finds { WalkFinds }
    ensures fails { WalkFails }
    ensures one { OneEnd }
    ensures short { ShortWays }
{
    0
}

// An alias may be redirected to the end of its way.
#[tactic(auto, using(crate::proofs::Redirect::redirects))]
pub fn redirect_law() -> u8
    ensures { Redirects }
{
    0
}
