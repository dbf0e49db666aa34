// Row lists in code: a number, and the halfspace of a row. The rule of rows stands in region/specs/Rows.
#![tactic(auto)]

ghost use Rattle.std.specs.Prelude.{◌≡◌, ◌+◌, ◌^◌, ◌≤◌, ◌<◌, length, get_or, drop, pos};
ghost use Rattle.algebra.proofs.Sizes.{Upto};
ghost use Rattle.vector.proofs.Sizes.{AtMost};
ghost use Rattle.region.specs.Rows.{halfspace_at};

use region::Halfspace;
use vector::Vec3;

pub mod checks;
pub mod counts;

// Number k of some rows.
// Kept: a row is five numbers where it lies, as C lends it and as the reader writes it, and no struct: what goes over rows takes the number and the halfspace
// of each apart at once, so a struct of the two would be made only for that.
pub fn number_at(rows: &[i32], k: usize) -> i64
    requires { k < length rows.now }
    ensures { (result ≡ get_or rows.now k (pos 0)) × Upto (2 ^ 31) result }
{
    rows[k] as i64
}

// The halfspace of the row that begins at number k.
pub fn halfspace_at(rows: &[i32], k: usize) -> Halfspace
    requires { k + 5 ≤ length rows.now }
    ensures value { result ≡ halfspace_at (drop k rows.now) }
    ensures at_most { AtMost (2 ^ 31) result.n × Upto (2 ^ 31) result.d }
{
    let x = number_at(rows, k + 1);
    let y = number_at(rows, k + 2);
    let z = number_at(rows, k + 3);
    let d = number_at(rows, k + 4);
    Halfspace {
        n: Vec3 { x, y, z },
        d,
    }
}
