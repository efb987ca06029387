// The laws over runs, about the definitions that every edit's contract cites.
ghost use Rattle.model.specs.Laws.{LawsOverRuns};

// Whatever edits were made, in whatever order and number, refused ones counted: what they reach from a new graph and a
// new table is lawful.
pub fn laws_over_runs() -> u8
    ensures { LawsOverRuns }
{
    0
}
