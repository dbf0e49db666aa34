// The payload readers of the records after the first: a header again, a convex, a halfspace, a group of halfspaces and the end, each checked for 4 and 7
// to 9, with the rows in an array. The rules stand in region/specs/Reader and Building, size and state between records in specs/Payloads.
#![tactic(auto)]

ghost use Rattle.std.specs.Prelude.{◌≡◌, true, false, cond, ◌&&◌, List, ℕ, ◌+◌, ◌*◌, ◌-◌, ◌/◌, ◌≤◌, ◌<◌, ltb, eqb, length};
ghost use Rattle.answer.specs.Calls.{answer_of};
ghost use Rattle.answer.specs.Answer.{refused, Order};
ghost use Rattle.answer.specs.Lent.{put};
ghost use Rattle.region.specs.Rows.{row};
ghost use Rattle.region.specs.Reader.{File, convex_in, halfspace_of, halfspace_in, halfspaces_in, group_in, end_in};
ghost use Rattle.region.proofs.AddLaws.{GoodHalfspace};
ghost use Rattle.region_rows.specs.RegionSizes.{region_size};
ghost use Rattle.region_payloads.specs.Payloads.{step_of, region_size_after, SizeAfterBy, RecordAfterBy, group_of};

use answer::Refusal;
use limits::HALFSPACES;
use region::Halfspace;
use region_rows::counts::RegionSize;
use std::ops::ControlFlow;

// The position of the next record, and the size of the region so far.
#[derive(Clone, Copy)]
pub struct State {
    pub at: usize,
    pub counts: RegionSize,
}

// What comes after a record: the reader goes on with the next one, or breaks off after the end, and then this is the count of the rows.
pub type Step = ControlFlow<u32, State>;

// 4: no convex has begun, or the last one has a halfspace.
fn may_begin(k: RegionSize) -> bool
    ensures { result ≡ cond (ltb 0 k.convexes) (ltb 0 k.last) true }
{
    k.convexes == 0 || 0 < k.last
}

// The payload of kind 1 after the first record: a header again, which is refused unread.
pub fn header_again(payload: &[u8]) -> Result<Step, Refusal>
    ensures { answer_of result ≡ refused Order }
{
    Err(Refusal::Order)
}

// A convex begins, after none or one with halfspaces.
fn convex_in(k: RegionSize) -> Result<RegionSize, Refusal>
    ensures { (x : File) → k ≡ region_size x.region → answer_of result ≡ region_size_after (convex_in x) }
{
    if !may_begin(k) {
        return Err(Refusal::Order);
    }
    region_rows::counts::with_convex(k)
}

// The payload of kind 2, which is empty: a convex begins.
pub fn convex_payload(payload: &[u8], s: State, next: usize) -> Result<Step, Refusal>
    requires { length payload.now ≡ 0 }
    ensures { (x : File) → s.counts ≡ region_size x.region → answer_of result ≡ step_of false next (convex_in x) }
{
    let counts = convex_in(s.counts)?;
    Ok(ControlFlow::Continue(State { at: next, counts }))
}

// The row of a halfspace in the last convex, written after the rows so far.
fn write_row(k: RegionSize, h: Halfspace, rows: &mut [i32])
    requires good_halfspace { GoodHalfspace h }
    requires convexes_nonzero { (0 < k.convexes) × (5 * k.all + 5 ≤ length rows.old) }
    ensures { rows.new ≡ put (5 * k.all) (row (k.convexes - 1) h) rows.old }
{
    let number = i32::from(k.convexes - 1);
    let n = h.n;
    let row = [number, n.x as i32, n.y as i32, n.z as i32, h.d as i32];
    let at = 5 * (k.all as usize);
    rows[at..at + 5].copy_from_slice(&row);
}

// A halfspace, in a convex. Its row is written.
fn halfspace_in(
    h: Halfspace,
    k: RegionSize,
    rows: &mut [i32; 5 * HALFSPACES],
) -> Result<RegionSize, Refusal>
    ensures { SizeAfterBy (λ x. halfspace_in x h) k rows.old (answer_of result) rows.new }
{
    if k.convexes == 0 {
        return Err(Refusal::Order);
    }
    let with = region_rows::counts::with_halfspace(k, h)?;
    write_row(k, h, rows);
    Ok(with)
}

// The payload of kind 3: a halfspace, in a convex.
pub fn halfspace_payload(
    payload: &[u8],
    s: State,
    next: usize,
    rows: &mut [i32; 5 * HALFSPACES],
) -> Result<Step, Refusal>
    requires { 16 ≤ length payload.now }
    ensures { RecordAfterBy (λ x. halfspace_in x (halfspace_of payload.now)) s.counts next rows.old (answer_of result)
        rows.new }
{
    let h = region_records::halfspace_of(payload);
    let counts = halfspace_in(h, s.counts, rows)?;
    Ok(ControlFlow::Continue(State { at: next, counts }))
}

// The halfspaces of a payload of kind 5, one after the other, each as one of kind 3.
fn halfspaces_in(
    payload: &[u8],
    k: RegionSize,
    rows: &mut [i32; 5 * HALFSPACES],
) -> Result<RegionSize, Refusal>
    ensures { SizeAfterBy (λ x. halfspaces_in x (group_of payload.now)) k rows.old (answer_of result)
        rows.new }
{
    let (parts, _) = payload.as_chunks::<16>();
    let mut size = k;
    for part in parts {
        size = halfspace_in(region_records::halfspace_of(part), size, rows)?;
    }
    Ok(size)
}

// The payload of kind 5: a convex begins, all its halfspaces are within the limit, and each is taken.
pub fn group_payload(
    payload: &[u8],
    s: State,
    next: usize,
    rows: &mut [i32; 5 * HALFSPACES],
) -> Result<Step, Refusal>
    ensures { RecordAfterBy (λ x. group_in x (group_of payload.now)) s.counts next rows.old (answer_of result)
        rows.new }
{
    let n = payload.len() / 16;
    let begun = convex_in(s.counts)?;
    if HALFSPACES < begun.all as usize + n {
        return Err(Refusal::Crowd);
    }
    let counts = halfspaces_in(payload, begun, rows)?;
    Ok(ControlFlow::Continue(State { at: next, counts }))
}

// 4: a convex has begun, the last one has a halfspace, and no byte follows.
fn may_end(k: RegionSize, following: usize) -> bool
    ensures { result ≡ (ltb 0 k.convexes && (ltb 0 k.last && eqb following 0)) }
{
    0 < k.convexes && 0 < k.last && following == 0
}

// The payload of kind 4, which is empty: the end. `following` bytes follow it.
pub fn end_payload(payload: &[u8], s: State, following: usize) -> Result<Step, Refusal>
    requires { length payload.now ≡ 0 }
    ensures { (x : File) (next : ℕ) (left : List ℕ)
        → s.counts ≡ region_size x.region → length left ≡ following → answer_of result ≡ step_of true next (end_in x left) }
{
    let k = s.counts;
    if !may_end(k, following) {
        return Err(Refusal::Order);
    }
    Ok(ControlFlow::Break(k.all as u32))
}
