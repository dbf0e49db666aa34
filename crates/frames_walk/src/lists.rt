// What a walk goes along: the two lists of a cover, in lent memory, the entries of an owner, and the rows of the region.
ghost use Rattle.std.specs.Prelude.{◌≡◌, ◌*◌, ◌≤◌, ◌<◌, length, drop};
ghost use Rattle.ranges.specs.Ranges.{ranges_in};
ghost use Rattle.index.specs.Entries.{IndexLength};
ghost use Rattle.frames_walk.specs.Lent.{ranges_of, Lent};

use limits::HALFSPACES;

// The two lists of a cover, each range by its lowest and highest identifier, and how many identifiers of depth 12 are one of theirs.
#[derive(Clone, Copy)]
pub struct Lists<'a> {
    pub outer: &'a [[u64; 2]],
    pub inner: &'a [[u64; 2]],
    pub span: u64,
    pub ghost some: { 0 < span },
}

impl<'a> Lists<'a> {
    // Those in a lent list: the outer one from element 0 on, the inner one from element `from` on.
    pub fn lent(ranges: &'a [u64], outer: usize, from: usize, inner: usize, span: u64) -> Lists<'a>
        requires { Lent outer from inner span ranges.now }
        ensures outer_value { ranges_of result.outer.now ≡ ranges_in outer ranges.now }
        ensures inner_value { ranges_of result.inner.now ≡ ranges_in inner (drop from ranges.now) }
        ensures span_value { result.span ≡ span }
    {
        Lists {
            outer: pairs(ranges, outer),
            inner: pairs(&ranges[from..], inner),
            span,
        }
    }
}

// The first n ranges of a list of numbers.
// Kept: `pairs` of print gives what the list has, where that is less; this one asks for all n, and so gives the ranges of `ranges_in`.
fn pairs<'a>(list: &'a [u64], n: usize) -> &'a [[u64; 2]]
    requires { 2 * n ≤ length list.now }
    ensures { ranges_of result.now ≡ ranges_in n list.now }
{
    let (pairs, _) = list.as_chunks::<2>();
    &pairs[..n]
}

// The entries of one owner in an index.
#[derive(Clone, Copy)]
pub struct OwnedEntries<'a> {
    pub index: &'a [i64],
    pub owner: u32,
    pub ghost long: { IndexLength ≤ length index.now },
}

// The rows of a region: the first `count` of an array.
// Kept: an array and a count, as the clauses of `search` (`SomeRows`, `SearchesRows`) and `held` of specs/Steps speak of rows and of how many there are.
#[derive(Clone, Copy)]
pub struct RegionRows<'a> {
    pub rows: &'a [i32; 5 * HALFSPACES],
    pub count: usize,
    pub ghost count_bound: { 5 * count ≤ 2560 },
}
