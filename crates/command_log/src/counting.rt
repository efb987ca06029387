ghost use Rattle.std.specs.Prelude.{◌≡◌, Some};
ghost use Rattle.ir.specs.Writing.{spaced};
ghost use Rattle.command_log.specs.Counting.{counted, of_counts};

use crate::counts::Counts;
use crate::outcome::Outcome;
use std::fmt;

impl Counts {
    // The counts of what came of a log.
    pub fn of(outcomes: &[Outcome]) -> Counts
        ensures { result ≡ counted outcomes.now }
    {
        let calls = outcomes.len();
        let accepted = outcomes.iter().filter(|outcome| outcome.is_ok()).count();
        Counts {
            calls,
            accepted,
            refused: calls - accepted,
        }
    }
}

impl fmt::Display for Counts {
    ghost output = { λ c. Some (spaced (of_counts c)) };

    fn fmt<W: fmt::Write>(&self, f: &mut fmt::Formatter<W>) -> fmt::Result {
        write!(
            f,
            "calls {} accepted {} refused {}",
            self.calls, self.accepted, self.refused,
        )
    }
}
