// What is sent back: the refusals, each with its number. A call answers with what it gives, or with one of them. The rules stand in specs/.
#![tactic(auto)]

ghost use Rattle.std.specs.Prelude.{◌≡◌};
ghost use Rattle.answer.specs.Calls.{number};

// The check that a call refuses by, the first that failed.
#[derive(Clone, Copy, Debug, PartialEq, Eq)]
pub enum Refusal {
    Long = 1,
    Torn,
    Kind,
    Order,
    Depth,
    Budget,
    Crowd,
    Vector,
    Offset,
    Space,
    Name,
    Float,
    Line,
    Mixed,
    Twice,
    Full,
    Absent,
    Owner,
}

impl Refusal {
    // The number that it is sent back as.
    pub fn number(self) -> u32
        ensures { result ≡ number self }
    {
        self as u32
    }
}
