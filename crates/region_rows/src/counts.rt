// The size of a region while it grows, in the reader and in the writer: a convex or a halfspace is added, within the stated limits. The rules stand in
// region/specs/Building, and by counts alone in specs/RegionSizes.
ghost use Rattle.std.specs.Prelude.{◌≡◌, ◌&&◌, [], ltb};
ghost use Rattle.answer.specs.Calls.{answer_of};
ghost use Rattle.region.specs.Building.{is_offset};
ghost use Rattle.region_rows.specs.RegionSizes.{region_size, add_convex, add_halfspace};

use answer::Refusal;
use limits::K;
use region::Halfspace;

const CONVEXES: u16 = limits::CONVEXES as u16;

const IN_CONVEX: u16 = limits::IN_CONVEX as u16;

const HALFSPACES: u16 = limits::HALFSPACES as u16;

// The size of a region: its convexes, the halfspaces in the last one, and those in all.
#[derive(Clone, Copy)]
pub struct RegionSize {
    pub convexes: u16,
    pub last: u16,
    pub all: u16,
}

// The size of the region without convexes.
// Kept: a function and no Default: an impl of it that says of what region this is the size would be longer, and one by a derive would not say it.
pub fn none() -> RegionSize
    ensures { result ≡ region_size [] }
{
    RegionSize {
        convexes: 0,
        last: 0,
        all: 0,
    }
}

// The size with a new convex, which has no halfspace yet, or the refusal 7.
pub fn with_convex(k: RegionSize) -> Result<RegionSize, Refusal>
    ensures { answer_of result ≡ add_convex k }
{
    if CONVEXES <= k.convexes {
        return Err(Refusal::Crowd);
    }
    Ok(RegionSize {
        convexes: k.convexes + 1,
        last: 0,
        ..k
    })
}

// 7: with another halfspace there are at most 100 in the last convex and at most 512 in all.
fn below_limits(k: RegionSize) -> bool
    ensures { result ≡ (ltb k.last 100 && ltb k.all 512) }
{
    k.last < IN_CONVEX && k.all < HALFSPACES
}

// 9: an offset from −K to K.
// Kept: the like of `within` in vector_products, which is private there: this is the rule's word, and the edit offset_of_K_refused is of it alone.
fn is_offset(d: i64) -> bool
    ensures { result ≡ is_offset d }
{
    (-K..=K).contains(&d)
}

// The size with another halfspace in the last convex, or the first refusal: 7, 8, 9.
pub fn with_halfspace(k: RegionSize, h: Halfspace) -> Result<RegionSize, Refusal>
    ensures { answer_of result ≡ add_halfspace k h }
{
    if !below_limits(k) {
        return Err(Refusal::Crowd);
    }
    if !vector_products::is_vector(h.n) {
        return Err(Refusal::Vector);
    }
    if !is_offset(h.d) {
        return Err(Refusal::Offset);
    }
    Ok(RegionSize {
        last: k.last + 1,
        all: k.all + 1,
        ..k
    })
}
