// Worked cases of the definitions that the edits' contracts cite.
ghost use Rattle.model.specs.Cases.{Worked};
ghost use Rattle.model.specs.Faults.{ToldApart};

// The nine worked cases hold, all together.
pub fn worked_cases() -> u8
    ensures { Worked }
{
    0
}

// The definitions tell the faults that such a graph invites from what is right.
pub fn faults_told_apart() -> u8
    ensures { ToldApart }
{
    0
}
