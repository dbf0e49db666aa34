// Ranges in lent memory: the smallest gap or the shortest range, and what is known of it. specs/Stored says how they stand there.
#![tactic(auto)]

ghost use Rattle.std.specs.Prelude.{◌≡◌, [], ◌∷◌, ◌++◌, ◌+◌, ◌*◌, ◌-◌, ◌≤◌, ◌<◌, length, get_or};
ghost use Rattle.ranges.specs.Lists.{earliest};
ghost use Rattle.ranges_stored.specs.Stored.{differences_in, Hinted, FirstAt, PointsAt};

use ranges::Range;

// What is known of some numbers, the gaps between ranges or their sizes less one: every one is at least floor, and those before number `from`
// are above it. By default nothing is known.
// Kept: `Hinted` is a clause, as it is of the hint and of the lent list that it is about.
#[derive(Clone, Copy, Default)]
pub struct MinHint {
    pub from: usize,
    pub floor: u64,
}

// What stands beside a lent list: how many ranges are stored in it, and what is known of their gaps, or of their sizes less one.
#[derive(Clone, Copy, Default)]
pub struct StoredRanges {
    pub n: usize,
    pub hint: MinHint,
}

// What stands beside the inner list: what is known of the ranges that are stored in it, and the last range, if there is one, which may still grow.
#[derive(Clone, Copy, Default)]
pub struct Pending {
    pub stored: StoredRanges,
    pub last: Option<Range>,
}

// Differences of `count` pairs in a lent list, from element `start` on. Both lists are searched so: the gaps are those from element 1 on, less 1, and the
// sizes, less one, those from element 0 on, less 0.
// Kept: a list with start and count, as `differences_in` of specs/Stored is of them, and `Hinted` and `PointsAt` of what that gives.
#[derive(Clone, Copy)]
struct Differences<'a> {
    list: &'a [u64],
    start: usize,
    less: u64,
    count: usize,
    ghost inside: { start + 2 * count ≤ length list.now },
}

impl<'a> Differences<'a> {
    // The difference of pair number i.
    fn at(&self, i: usize) -> u64
        requires { i < self.now.count }
        ensures { result ≡ get_or self.now.list.now (self.now.start + 2 * i + 1) 0 - get_or self.now.list.now (self.now.start + 2 * i) 0 - self.now.less }
    {
        let pair = self.start + 2 * i;
        self.list[pair + 1]
            .saturating_sub(self.list[pair])
            .saturating_sub(self.less)
    }

    // The number of the first that is the hint's floor, from the hint's number on, if there is one.
    fn first_at(&self, hint: MinHint) -> Option<usize>
        requires { Hinted hint (differences_in self.now.start self.now.less self.now.count self.now.list.now) }
        ensures { FirstAt hint.floor result (differences_in self.now.start self.now.less self.now.count self.now.list.now) }
    {
        (hint.from..self.count).find(|i| self.at(*i) == hint.floor)
    }

    // The smallest, the earliest among equals.
    fn search_all(&self) -> MinHint
        requires { 1 ≤ self.now.count }
        ensures { PointsAt result (differences_in self.now.start self.now.less self.now.count self.now.list.now) }
    {
        let from = (0..self.count).min_by_key(|i| self.at(*i)).unwrap_or(0);
        MinHint {
            from,
            floor: self.at(from),
        }
    }
}

// The smallest of count differences, the earliest among equals, by the hint: the search begins where it points, and goes through the whole list only where
// no difference is its floor any more.
pub fn at_smallest(list: &[u64], start: usize, less: u64, count: usize, hint: MinHint) -> MinHint
    requires le_count { (1 ≤ count) × (start + 2 * count ≤ length list.now) }
    requires hinted { Hinted hint (differences_in start less count list.now) }
    ensures { PointsAt result (differences_in start less count list.now) }
{
    let all = Differences {
        list,
        start,
        less,
        count,
    };
    match all.first_at(hint) {
        Some(next) => MinHint {
            from: next,
            floor: hint.floor,
        },
        None => all.search_all(),
    }
}
