ghost use Rattle.std.specs.Prelude.{◌≡◌, ◌≤◌};
ghost use Rattle.ir.specs.Reasons.{number_of};
ghost use Rattle.ir.specs.Refusals.{Refusal};
ghost use Rattle.ir.specs.Writing.{word};

use crate::reason::Reason;

// The layer that refuses.
#[derive(Clone, Copy, PartialEq, Eq)]
pub enum Layer {
    Packing,
    Pool,
    Table,
    Graph,
}

// Why something cannot be packed or unpacked, with what was found.
#[derive(Clone, Copy, PartialEq, Eq)]
pub enum PackFault {
    // A type from 16,384, a payload from 2^30, or a packed number from 65,536.
    Wide(u32),
    // An argument word with tag 3.
    Tag(u32),
}

// A refusal of any layer, and what it tells. Each layer says its own reasons, so its impl is like the others in form only.
pub trait Fault: Copy {
    ghost told: { Self → Refusal };

    fn reason(self) -> Reason
        ensures { number_of result ≡ (told self).number };

    fn layer(self) -> Layer
        ensures { result ≡ (told self).layer };

    // What was found.
    fn detail(self) -> u32
        ensures { result ≡ (told self).detail };

    final fn number(self) -> u32
        ensures { result ≡ (told self).number }
    {
        self.reason().number()
    }

    // The word that goes with the number.
    final fn word(self) -> &'static str
        ensures { result.now ≡ word (told self).number }
    {
        self.reason().word()
    }

    ghost numbered: { (f : Self) → (1 ≤ (told f).number) × ((told f).number ≤ 15) };
}

// A refusal as it is written.
#[derive(Clone, Copy)]
pub struct Refused<F: Fault>(pub F);
