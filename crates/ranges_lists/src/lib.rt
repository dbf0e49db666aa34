// The outer and the inner list, pushed range after range. The rules are `outer_push` and `inner_push` of ranges/proofs/Pushing.
#![tactic(auto)]

ghost use Rattle.std.specs.Prelude.{◌≡◌, [], ◌∷◌, ◌++◌, ◌+◌, ◌-◌, ◌*◌, ◌≤◌, length, set};
ghost use Rattle.algebra.specs.Moves.{shifted_down};
ghost use Rattle.ranges.specs.Lists.{gaps};
ghost use Rattle.ranges.proofs.Pushing.{outer_push, outer_full, inner_full, inner_close, inner_push, inner_end};
ghost use Rattle.ranges.specs.Ranges.{ranges_in};
ghost use Rattle.ranges_stored.specs.Stored.{differences, differences_in, no_hint, written, Writes, Hinted, state_of, Stores};

use ranges::Range;
use ranges_stored::{MinHint, Pending, StoredRanges};

// Of n ranges, two elements go, those from element `at` on, and the range r stands behind the others.
// Kept: ranges as pairs of numbers, as document 01 says of the list that is lent.
fn replace(list: &mut [u64], n: usize, at: usize, r: Range)
    requires { (at + 2 ≤ 2 * n) × (2 * n ≤ length list.old) }
    ensures { list.new ≡ set (set (shifted_down 2 at list.old (2 * n - 2 - at)) (2 * n - 2) r.low) (2 * n - 2 + 1) r.high }
{
    let place = 2 * n - 2;
    algebra::shift_down::<u64, 2>(list, at, place - at);
    list[place] = r.low;
    list[place + 1] = r.high;
}

// Pushes a range that does not touch the last onto a full list, whose n ranges are the budget. If its gap is the smallest, the range joins on to the last
// one; else two others join, and it stands behind them. The answer is what is known of the gaps then.
// Kept: the list beside what is stored in it, as both lists are parts of one list that C lends, and elements behind stay.
fn outer_full(list: &mut [u64], stored: StoredRanges, r: Range) -> MinHint
    requires le_n { (1 ≤ stored.n) × (2 * stored.n ≤ length list.old) }
    requires hinted { Hinted stored.hint (gaps (ranges_in stored.n list.old)) }
    ensures list_after { list.new ≡ written (outer_full (ranges_in stored.n list.old) r) list.old }
    ensures hinted_2 { Hinted result (gaps (outer_full (ranges_in stored.n list.old) r)) }
{
    let n = stored.n;
    if n == 1 {
        list[1] = r.high;
        return stored.hint;
    }
    let end = 2 * n - 1;
    let gap = r.low.saturating_sub(list[end]).saturating_sub(1);
    let next = ranges_stored::at_smallest(list, 1, 1, n - 1, stored.hint);
    if gap < next.floor {
        list[end] = r.high;
        return next;
    }
    replace(list, n, 2 * next.from + 1, r);
    next
}

// Stores a range behind the n that stand in the list.
fn append(list: &mut [u64], n: usize, r: Range) -> StoredRanges
    requires { 2 * n + 2 ≤ length list.old }
    ensures writes { Writes (ranges_in n list.old ++ r ∷ []) list.old list.new result.n }
    ensures one_more { result.n ≡ n + 1 }
    ensures hint { result.hint ≡ no_hint }
{
    list[2 * n] = r.low;
    list[2 * n + 1] = r.high;
    StoredRanges {
        n: n + 1,
        hint: MinHint::default(),
    }
}

// Pushes a range onto the outer list, whose ranges stand at the front of the lent list. The answer is what stands there then: not fewer ranges, and at
// most the budget.
pub fn outer_push(list: &mut [u64], stored: StoredRanges, budget: usize, r: Range) -> StoredRanges
    requires le_budget { (1 ≤ budget) × (stored.n ≤ budget) × (2 * budget ≤ length list.old) }
    requires hinted { Hinted stored.hint (gaps (ranges_in stored.n list.old)) }
    ensures writes { Writes (outer_push budget (ranges_in stored.n list.old) r) list.old list.new result.n }
    ensures n_le_n { (stored.n ≤ result.n) × (result.n ≤ budget) }
    ensures hinted_2 { Hinted result.hint (gaps (ranges_in result.n list.new)) }
{
    let n = stored.n;
    if n == 0 {
        return append(list, 0, r);
    }
    let high = 2 * n - 1;
    let last = Range {
        low: list[high - 1],
        high: list[high],
    };
    if last.touches(r) {
        list[high] = r.high;
        return stored;
    }
    if n < budget {
        return append(list, n, r);
    }
    StoredRanges {
        hint: outer_full(list, stored, r),
        ..stored
    }
}

// Stores a closed range in a full list, whose n ranges are the budget: the shortest is dropped, the new one or another. The answer is what is known of the
// sizes less one then.
fn inner_full(list: &mut [u64], stored: StoredRanges, r: Range) -> MinHint
    requires le_n { (1 ≤ stored.n) × (2 * stored.n ≤ length list.old) }
    requires hinted { Hinted stored.hint (differences_in 0 0 stored.n list.old) }
    ensures list_after { list.new ≡ written (inner_full (ranges_in stored.n list.old) r) list.old }
    ensures hinted_2 { Hinted result (differences 0 (inner_full (ranges_in stored.n list.old) r)) }
{
    let n = stored.n;
    let size_less_one = r.high.saturating_sub(r.low);
    let next = ranges_stored::at_smallest(list, 0, 0, n, stored.hint);
    if size_less_one < next.floor {
        return next;
    }
    replace(list, n, 2 * next.from, r);
    next
}

// Stores a closed range behind those that are stored. The answer is what is stored then, at most the budget.
fn inner_close(list: &mut [u64], stored: StoredRanges, budget: usize, r: Range) -> StoredRanges
    requires le_budget { (1 ≤ budget) × (stored.n ≤ budget) × (2 * budget ≤ length list.old) }
    requires hinted { Hinted stored.hint (differences_in 0 0 stored.n list.old) }
    ensures writes { Writes (inner_close budget (ranges_in stored.n list.old) r) list.old list.new result.n }
    ensures n_le_budget { result.n ≤ budget }
    ensures hinted_2 { Hinted result.hint (differences_in 0 0 result.n list.new) }
{
    if stored.n == budget {
        return StoredRanges {
            hint: inner_full(list, stored, r),
            ..stored
        };
    }
    append(list, stored.n, r)
}

// Pushes a range onto the inner list: the last one grows, or is closed and the new one is the last.
pub fn inner_push(list: &mut [u64], p: Pending, budget: usize, r: Range) -> Pending
    requires le_budget { (1 ≤ budget) × (p.stored.n ≤ budget) × (2 * budget ≤ length list.old) }
    requires hinted { Hinted p.stored.hint (differences_in 0 0 p.stored.n list.old) }
    ensures stores { Stores (inner_push budget (state_of p list.old) r) list.old list.new result }
    ensures n_le_budget { result.stored.n ≤ budget }
    ensures hinted_2 { Hinted result.stored.hint (differences_in 0 0 result.stored.n list.new) }
{
    let Some(last) = p.last else {
        return Pending {
            last: Some(r),
            ..Pending::default()
        };
    };
    if last.touches(r) {
        return Pending {
            last: Some(Range {
                high: r.high,
                ..last
            }),
            ..p
        };
    }
    Pending {
        stored: inner_close(list, p.stored, budget, last),
        last: Some(r),
    }
}

// Closes the inner list: its last range is stored too. The answer is how many are stored then, at most the budget.
pub fn inner_end(list: &mut [u64], p: Pending, budget: usize) -> usize
    requires le_budget { (1 ≤ budget) × (p.stored.n ≤ budget) × (2 * budget ≤ length list.old) }
    requires hinted { Hinted p.stored.hint (differences_in 0 0 p.stored.n list.old) }
    ensures writes { Writes (inner_end budget (state_of p list.old)) list.old list.new result }
    ensures upper_bound { result ≤ budget }
{
    let Some(last) = p.last else {
        return 0;
    };
    inner_close(list, p.stored, budget, last).n
}
