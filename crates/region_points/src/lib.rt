// The point test: a point against the rows of a file, one after the other. The rule is `point_test` of region/specs/Answers, the scan in specs/Points.
#![tactic(auto)]

ghost use Rattle.std.specs.Prelude.{◌≡◌, ◌&&◌, ◌||◌, ◌+◌, ◌*◌, ◌^◌, ◌≤◌, length};
ghost use Rattle.answer.specs.Calls.{answer_of};
ghost use Rattle.algebra.proofs.Sizes.{Upto};
ghost use Rattle.vector.proofs.Sizes.{AtMost, Small};
ghost use Rattle.region.specs.Regions.{holds_halfspace};
ghost use Rattle.region.specs.Answers.{point_test};
ghost use Rattle.region_points.specs.Points.{scanned, rows_hold};

use answer::Refusal;
use limits::{HALFSPACES, K};
use region::Halfspace;
use vector::Vec3;

// The convex that is scanned: its number, whether it holds the point so far, and whether an earlier one does.
#[derive(Clone, Copy)]
pub struct Scan {
    pub number: i64,
    pub all: bool,
    pub any: bool,
}

// Whether a halfspace holds p: n·p ≥ d·K.
fn holds_halfspace(h: Halfspace, p: Vec3) -> bool
    requires at_most { AtMost (2 ^ 31) h.n × Upto (2 ^ 31) h.d }
    requires small { Small p }
    ensures { result ≡ holds_halfspace h p }
{
    h.d * K <= vector_products::dot(p, h.n)
}

// The state after a row of the convex `number`; `here`: its halfspace holds the point.
fn next(s: Scan, number: i64, here: bool) -> Scan
    requires { Upto (2 ^ 31) s.number × Upto (2 ^ 31) number }
    ensures { (result ≡ scanned s number here) × Upto (2 ^ 31) result.number }
{
    if number == s.number {
        return Scan {
            all: s.all && here,
            ..s
        };
    }
    Scan {
        number,
        all: here,
        any: s.any || s.all,
    }
}

// Whether the region of the first `count` rows holds p. For the rows of a region this is the region's own answer (`rows_hold_law` proofs/PointLaws).
pub fn rows_hold(rows: &[i32], count: usize, p: Vec3) -> bool
    requires count_in_bounds { 5 * count ≤ length rows.now }
    requires small { Small p }
    ensures { result ≡ rows_hold p count rows.now }
{
    let (fives, _) = rows.as_chunks::<5>();
    let mut s = Scan {
        number: 0,
        all: true,
        any: false,
    };
    for row in &fives[..count] {
        let number = region_rows::number_at(row, 0);
        s = next(
            s,
            number,
            holds_halfspace(region_rows::halfspace_at(row, 0), p),
        );
    }
    s.any || s.all
}

// Whether the region of a file holds p, or the refusal: the file's checks, then 8.
pub fn point_test(file: &[u8], p: Vec3) -> Result<bool, Refusal>
    ensures { answer_of result ≡ point_test file.now p }
{
    let mut rows = [0i32; 5 * HALFSPACES];
    let h = region_reader::decode(file, &mut rows)?;
    if !vector_products::is_vector(p) {
        return Err(Refusal::Vector);
    }
    Ok(rows_hold(&rows, h.count as usize, p))
}
