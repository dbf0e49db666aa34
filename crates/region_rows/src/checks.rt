// Rows that are to be written, checked one after the other for 4, 7, 8 and 9, and counted. The rule stands in region/specs/Rows, the size of a region in
// specs/RegionSizes, the convex of a row in specs/Opening.
ghost use Rattle.std.specs.Prelude.{◌≡◌, ◌&&◌, ◌||◌, [], ◌+◌, ◌/◌, ◌%◌, ◌≤◌, ltb, pos, ◌+ℤ◌, length};
ghost use Rattle.answer.specs.Calls.{answer_of};
ghost use Rattle.answer.specs.Answer.{with_value};
ghost use Rattle.vector.specs.Numbers.{eq_z};
ghost use Rattle.region.specs.Regions.{Region};
ghost use Rattle.region.specs.Rows.{row_in, rows_in, region_of};
ghost use Rattle.region_rows.specs.RegionSizes.{region_size};
ghost use Rattle.region_rows.specs.Opening.{opens_convex};

use crate::counts::RegionSize;
use answer::Refusal;
use region::Halfspace;

// Whether a row's number c is k.
// Kept: `==` of two types, as a row's number has a sign and a count has none: the conversion stands here once for four comparisons, one of the writer's.
pub fn is_number(c: i64, k: u16) -> bool
    ensures { result ≡ eq_z c (pos k) }
{
    c == i64::from(k)
}

// Whether a row's number c is that of a new convex or of the last one, where there are n convexes.
fn belongs(c: i64, n: u16) -> bool
    ensures { result ≡ (eq_z c (pos n) || (ltb 0 n && eq_z (c +ℤ pos 1) (pos n))) }
{
    is_number(c, n) || 0 < n && is_number(c, n - 1)
}

// The size with the convex that the row with the number c belongs to, or the refusal 7.
fn opened(k: RegionSize, c: i64) -> Result<RegionSize, Refusal>
    ensures { answer_of result ≡ opens_convex k c }
{
    if is_number(c, k.convexes) {
        return crate::counts::with_convex(k);
    }
    Ok(k)
}

// The size with another row, or the first refusal: 4, 7, 8, 9.
fn with_row(k: RegionSize, c: i64, h: Halfspace) -> Result<RegionSize, Refusal>
    requires { k.convexes ≤ 64 }
    ensures { (g : Region) → region_size g ≡ k → answer_of result ≡ with_value region_size (row_in g c h) }
{
    if !belongs(c, k.convexes) {
        return Err(Refusal::Order);
    }
    let with = opened(k, c)?;
    crate::counts::with_halfspace(with, h)
}

// The size of the region of rows in whole fives, or the first refusal of a row.
fn count_rows(rows: &[i32]) -> Result<RegionSize, Refusal>
    requires { length rows.now % 5 ≡ 0 }
    ensures { answer_of result ≡ with_value region_size (rows_in (length rows.now / 5) [] rows.now) }
{
    let (fives, _) = rows.as_chunks::<5>();
    let mut size = crate::counts::none();
    for row in fives {
        let number = crate::number_at(row, 0);
        size = with_row(size, number, crate::halfspace_at(row, 0))?;
    }
    Ok(size)
}

// The size of the region of rows, or the first refusal: no rows and whole fives (4), then each row.
pub fn checked(rows: &[i32]) -> Result<RegionSize, Refusal>
    ensures { answer_of result ≡ with_value region_size (region_of rows.now) }
{
    if rows.is_empty() || rows.len() % 5 != 0 {
        return Err(Refusal::Order);
    }
    count_rows(rows)
}
