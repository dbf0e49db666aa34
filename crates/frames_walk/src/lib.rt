// The walk over one owner's entries beside the two lists of a cover in lent memory, each gone through once. The rule is `walk` of frames/specs/Walk;
// specs/Steps says how far a walk is.
#![tactic(auto)]

ghost use Rattle.std.specs.Prelude.{◌≡◌, cond, [], ◌∷◌, ◌+◌, ◌/◌, ◌^◌, ◌≤◌, ◌<◌, ltb, length, get_or};
ghost use Rattle.std.specs.List.{prefix_len};
ghost use Rattle.answer.specs.Lent.{put};
ghost use Rattle.index.specs.Exposures.{OwnerCapacity};
ghost use Rattle.index.specs.Entries.{IndexLength};
ghost use Rattle.frames.specs.Walk as rule;
ghost use Rattle.frames.specs.Walk.{disposition_of, is_delivered, number_of};
ghost use Rattle.frames_walk.specs.Lent.{ranges_of};
ghost use Rattle.frames_walk.specs.Steps.{with_disposition, held, Fits, VisitsEntry, VisitsIfOwned, Walks};

use crate::lists::{Lists, OwnedEntries, RegionRows};
use frames::Disposition;
use index::{Entry, OWNER_CAPACITY};
use vector::Vec3;

pub mod lists;

// How many entries were delivered unchecked, tested and held, and tested and discarded.
#[derive(Clone, Copy, Default)]
pub struct DispositionCounts {
    pub unchecked: u64,
    pub held: u64,
    pub discarded: u64,
}

// How far a walk is: how many of the owner's entries it has visited, what it has not left behind of both lists, and what it has counted.
#[derive(Clone, Copy)]
pub struct WalkState<'a> {
    pub visited: usize,
    pub lists: Lists<'a>,
    pub dispositions: DispositionCounts,
}

// The identifier of an entry at a depth of which one is `span` of depth 12; 0 for one below 0.
fn shortened(e: Entry, span: u64) -> u64
    requires { 0 < span }
    ensures { result ≡ rule.natural e.id / span }
{
    u64::try_from(e.id).unwrap_or(0) / span
}

// The number of an entry, where it has 32 bits; else 0.
fn number_of(e: Entry) -> u32
    ensures { result ≡ number_of e }
{
    u32::try_from(e.number).unwrap_or(0)
}

// How many ranges at the beginning end below an identifier.
fn behind(list: &[[u64; 2]], id: u64) -> usize
    ensures { (result ≡ prefix_len (λ r. ltb (get_or r 1 0) id) list.now) × (result ≤ length list.now) }
{
    list.iter().take_while(|r| r[1] < id).count()
}

// The ranges from the first one on that does not end below an identifier.
fn ahead<'a>(list: &'a [[u64; 2]], id: u64) -> &'a [[u64; 2]]
    ensures { ranges_of result.now ≡ rule.ahead id (ranges_of list.now) }
{
    &list[behind(list, id)..]
}

// Whether the first range begins at an identifier or below it.
fn begins(list: &[[u64; 2]], id: u64) -> bool
    ensures { result ≡ rule.begins id (ranges_of list.now) }
{
    list.first().is_some_and(|r| r[0] <= id)
}

// What becomes of an entry with the pointing p, by whether it is in an inner and in an outer range; the point test is made where only the second is so.
fn disposition_of(inner: bool, outer: bool, region: RegionRows, p: Vec3) -> Disposition
    ensures { result ≡ disposition_of (held region.entry) inner outer p }
{
    if inner {
        return Disposition::Unchecked;
    }
    if !outer {
        return Disposition::Skipped;
    }
    let rows = region.rows;
    if vector_products::is_vector(p) && region_points::rows_hold(rows, region.count, p) {
        Disposition::Held
    } else {
        Disposition::Discarded
    }
}

// Counts an entry by its disposition.
fn count_disposition(t: DispositionCounts, disposition: Disposition) -> DispositionCounts
    requires { t.unchecked + t.held + t.discarded ≤ OwnerCapacity }
    ensures { result ≡ with_disposition t disposition }
{
    match disposition {
        Disposition::Skipped => t,
        Disposition::Unchecked => DispositionCounts {
            unchecked: t.unchecked + 1,
            ..t
        },
        Disposition::Held => DispositionCounts {
            held: t.held + 1,
            ..t
        },
        Disposition::Discarded => DispositionCounts {
            discarded: t.discarded + 1,
            ..t
        },
    }
}

// Stores the number of an entry at place k, where it is delivered.
fn deliver(numbers: &mut [u32], k: usize, e: Entry, disposition: Disposition)
    requires { k < length numbers.old }
    ensures { numbers.new ≡ cond (is_delivered disposition) (put k (number_of e ∷ []) numbers.old) numbers.old }
{
    if matches!(disposition, Disposition::Unchecked | Disposition::Held) {
        numbers[k] = number_of(e);
    }
}

// The next entry of the owner: both lists go on to its identifier, and its disposition is counted.
fn visit_entry<'a>(
    at: WalkState<'a>,
    e: Entry,
    region: RegionRows,
    numbers: &mut [u32],
) -> WalkState<'a>
    requires lent { Fits at × (at.visited < OwnerCapacity) × (OwnerCapacity ≤ length numbers.old) }
    ensures visits_entry { VisitsEntry region.entry e at.entry numbers.old result numbers.new }
    ensures fits { Fits result × (result.visited ≡ at.entry.visited + 1) × (length numbers.new ≡ length numbers.old) }
{
    let id = shortened(e, at.lists.span);
    let left = Lists {
        outer: ahead(at.lists.outer, id),
        inner: ahead(at.lists.inner, id),
        span: at.lists.span,
    };
    let disposition = disposition_of(
        begins(left.inner, id),
        begins(left.outer, id),
        region,
        e.pointing,
    );
    let delivered = at.dispositions.unchecked + at.dispositions.held;
    deliver(numbers, delivered as usize, e, disposition);
    WalkState {
        visited: at.visited + 1,
        lists: left,
        dispositions: count_disposition(at.dispositions, disposition),
    }
}

// The next entry, of either owner; the owner's are visited, up to an owner's capacity.
fn visit_if_owned<'a>(
    at: WalkState<'a>,
    e: Entry,
    owner: u32,
    region: RegionRows,
    numbers: &mut [u32],
) -> WalkState<'a>
    requires lent { Fits at × (OwnerCapacity ≤ length numbers.old) }
    ensures visits_if_owned { VisitsIfOwned owner region.entry e at.entry numbers.old result numbers.new }
    ensures fits { Fits result × (length numbers.new ≡ length numbers.old) }
{
    if !index_entries::is_owned(e, owner) || OWNER_CAPACITY <= at.visited {
        return at;
    }
    visit_entry(at, e, region, numbers)
}

// The walk over the owner's entries: the numbers of those delivered, from element 0 of `numbers` on, and the counts.
pub fn walk(
    entries: OwnedEntries,
    lists: Lists,
    region: RegionRows,
    numbers: &mut [u32],
) -> DispositionCounts
    requires in_bounds { OwnerCapacity ≤ length numbers.old }
    ensures { Walks entries.entry lists.entry region.entry numbers.old result numbers.new }
{
    let mut at = WalkState {
        visited: 0,
        lists,
        dispositions: DispositionCounts::default(),
    };
    for e in index_entries::entries(entries.index) {
        let e = index_entries::entry_at(e, 0);
        at = visit_if_owned(at, e, entries.owner, region, numbers);
    }
    at.dispositions
}
