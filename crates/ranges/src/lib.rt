// Ranges of identifiers and the two lists under a budget: rules and laws, and a range itself.
#![tactic(auto)]

ghost use Rattle.std.specs.Prelude.{◌≡◌};
ghost use Rattle.ranges.specs.Lists.{touch};

// A range of identifiers, from low to high.
#[derive(Clone, Copy)]
pub struct Range {
    pub low: u64,
    pub high: u64,
}

impl Range {
    // Whether the next range begins right behind this one.
    pub fn touches(self, next: Range) -> bool
        ensures { result ≡ touch self next }
    {
        self.high.checked_add(1) == Some(next.low)
    }
}
