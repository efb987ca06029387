ghost use Rattle.std.specs.Prelude.{◌≡◌};
ghost use Rattle.ir.specs.Reasons.{number_of};
ghost use Rattle.ir.specs.Writing.{word};

// Why a call is refused, in the numbering that all layers share.
#[derive(Clone, Copy, PartialEq, Eq)]
pub enum Reason {
    Unknown = 1,
    Retired = 2,
    Wide = 3,
    Tag = 4,
    Kind = 5,
    Loose = 6,
    Attached = 7,
    Types = 8,
    Loop = 9,
    Count = 10,
    Side = 11,
    Twice = 12,
    Full = 13,
    NoBlock = 14,
    Long = 15,
}

impl Reason {
    pub fn number(self) -> u32
        ensures { result ≡ number_of self }
    {
        self as u32
    }

    // The word that goes with the number.
    pub fn word(self) -> &'static str
        ensures { result.now ≡ word (number_of self) }
    {
        match self {
            Reason::Unknown => "unknown",
            Reason::Retired => "retired",
            Reason::Wide => "wide",
            Reason::Tag => "tag",
            Reason::Kind => "kind",
            Reason::Loose => "loose",
            Reason::Attached => "attached",
            Reason::Types => "type",
            Reason::Loop => "loop",
            Reason::Count => "count",
            Reason::Side => "union",
            Reason::Twice => "twice",
            Reason::Full => "full",
            Reason::NoBlock => "pool",
            Reason::Long => "long",
        }
    }
}
