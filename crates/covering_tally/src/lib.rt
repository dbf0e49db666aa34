// What a cutting has found so far, with its budget, and the two lists in the lent list. specs/Tally says what is noted.
#![tactic(auto)]

ghost use Rattle.std.specs.Prelude.{◌≡◌, ◌+◌, ◌-◌, ◌≤◌};
ghost use Rattle.covering.specs.Cover.{taken_full, taken_partial};
ghost use Rattle.covering_tally.specs.Tally.{no_tally, one_more, one_full, one_partial, counts_in, TrixelAccepted, InnerNeeds, InnerPushed, InnerAdded, Countable, SmallRange, TallyInvariant, OuterPushed};

use covering::Counts;
use ranges::Range;
use ranges_stored::{Pending, StoredRanges};

// What was found so far: what stands beside the outer and beside the inner list, the trixels classified, the identifiers of full trixels and the partial
// trixels; and the budget, which stays.
// Kept: `TallyInvariant` is a clause, as it is of the tally and of the lent list beside it.
// Kept: `Countable` is a clause of each count and no ghost field: it says that one trixel more can be counted, which need not hold of the tally after it.
#[derive(Clone, Copy, Default)]
pub struct Tally {
    pub outer: StoredRanges,
    pub inner: Pending,
    pub seen: u64,
    pub budget: usize,
    pub full: u64,
    pub partial: u64,
}

// Pushes a range onto the inner list, which is written from element 2 × budget on.
// Kept: both lists are parts of one list of numbers, as C lends it, and the part is lent on in the form that document 01 names.
fn push_inner(out: &mut [u64], budget: usize, p: Pending, r: Range) -> Pending
    requires { InnerNeeds budget p out.old }
    ensures { InnerPushed budget r p out.old result out.new }
{
    ranges_lists::inner_push(&mut out[2 * budget..], p, budget, r)
}

impl Tally {
    // Before the first trixel.
    pub fn new(budget: usize) -> Tally
        ensures { result ≡ no_tally budget }
    {
        Tally {
            budget,
            ..Tally::default()
        }
    }

    // The counts, where the inner list has `inner` ranges and the outer list contains `contained` identifiers: what is left of them was swallowed.
    pub fn counts(&self, inner: u64, contained: u64) -> Counts
        requires { self.now.full + self.now.partial ≤ contained }
        ensures { result ≡ counts_in self.now inner contained }
    {
        Counts {
            outer: self.outer.n as u64,
            inner,
            seen: self.seen,
            full: self.full,
            partial: self.partial,
            swallowed: contained - self.full - self.partial,
        }
    }

    // Counts a trixel as classified.
    pub fn seen_more(&mut self)
        requires { Countable self.old }
        ensures { self.new ≡ one_more self.old }
    {
        self.seen += 1;
    }

    // Counts a trixel as classified, and as partial, at the depth.
    fn partial_more(&mut self)
        requires { Countable self.old }
        ensures { self.new ≡ one_partial self.old }
    {
        self.seen_more();
        self.partial += 1;
    }

    // Counts a trixel as classified, and as full, with the identifiers of r at the depth.
    fn full_more(&mut self, r: Range)
        requires countable { Countable self.old }
        requires small_range { SmallRange r }
        ensures { self.new ≡ one_full (r.high - r.low + 1) self.old }
    {
        self.seen_more();
        self.full += r.high - r.low + 1;
    }

    // Pushes a range onto the outer list, and notes what is known of it then.
    fn push_outer(&mut self, out: &mut [u64], r: Range)
        requires { TallyInvariant self.old out.old }
        ensures { OuterPushed r self.old out.old self.new out.new }
    {
        self.outer = ranges_lists::outer_push(out, self.outer, self.budget, r);
    }

    // Pushes a range onto the inner list, and notes what stands beside it then.
    fn add_inner(&mut self, out: &mut [u64], r: Range)
        requires { InnerNeeds self.old.budget self.old.inner out.old }
        ensures { InnerAdded r self.old out.old self.new out.new }
    {
        self.inner = push_inner(out, self.budget, self.inner, r);
    }

    // Accepts a partial trixel at the depth.
    pub fn take_partial(&mut self, out: &mut [u64], r: Range)
        requires tally_invariant { TallyInvariant self.old out.old }
        requires countable { Countable self.old }
        ensures { TrixelAccepted (taken_partial r) self.old out.old self.new out.new }
    {
        self.push_outer(out, r);
        self.partial_more();
    }

    // Accepts a full trixel.
    pub fn take_full(&mut self, out: &mut [u64], r: Range)
        requires tally_invariant { TallyInvariant self.old out.old }
        requires countable { Countable self.old }
        requires small_range { SmallRange r }
        ensures { TrixelAccepted (taken_full r) self.old out.old self.new out.new }
    {
        self.push_outer(out, r);
        self.add_inner(out, r);
        self.full_more(r);
    }
}
