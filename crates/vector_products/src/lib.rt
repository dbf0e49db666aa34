// Sums, products and the vector rule in code, and vectors in lists of numbers. The rules stand in vector/specs, vectors in lists in specs/Stored.
#![tactic(auto)]

ghost use Rattle.std.specs.Prelude.{◌≡◌, ◌&&◌, ◌+◌, ◌-◌, ◌*◌, ◌^◌, ◌≤◌, pos, neg_ℤ, nat_abs, ◌+ℤ◌, ◌-ℤ◌, ◌*ℤ◌, length};
ghost use Rattle.algebra.proofs.Sizes.{Upto};
ghost use Rattle.vector.specs.Numbers.{K, between};
ghost use Rattle.vector.proofs.Sizes.{AtMost, Small};
ghost use Rattle.vector.specs.Vectors as rule;
ghost use Rattle.vector_products.specs.Stored.{vec_in};
ghost use Rattle.answer.specs.Lent.{put};
ghost use Rattle.vector.specs.Vectors.{three};

use limits::K;
use vector::Vec3;

// a + b
// Kept: that components are small is a clause (`Small`, `AtMost`) and no invariant of Vec3, as `is_vector` and `lookup` take any vector and refuse it.
pub fn sum(a: Vec3, b: Vec3) -> Vec3
    requires at_most { AtMost (2 ^ 21) a }
    requires at_most_2 { AtMost (2 ^ 21) b }
    ensures value { result ≡ rule.plus a b }
    ensures at_most_3 { AtMost (2 ^ 22) result }
{
    Vec3 {
        x: a.x + b.x,
        y: a.y + b.y,
        z: a.z + b.z,
    }
}

// −a
pub fn negated(a: Vec3) -> Vec3
    requires { Small a }
    ensures value { result ≡ rule.minus a }
    ensures small { Small result }
{
    Vec3 {
        x: -a.x,
        y: -a.y,
        z: -a.z,
    }
}

// a·b
pub fn dot(a: Vec3, b: Vec3) -> i64
    requires small { Small a }
    requires at_most { AtMost (2 ^ 41) b }
    ensures value { result ≡ rule.dot a b }
    ensures upto { Upto (3 * 2 ^ 61) result }
{
    a.x * b.x + a.y * b.y + a.z * b.z
}

// a × b
pub fn cross(a: Vec3, b: Vec3) -> Vec3
    requires small { Small a }
    requires small_2 { Small b }
    ensures value { result ≡ rule.cross a b }
    ensures at_most { AtMost (2 ^ 41) result }
{
    Vec3 {
        x: a.y * b.z - a.z * b.y,
        y: a.z * b.x - a.x * b.z,
        z: a.x * b.y - a.y * b.x,
    }
}

// s·s
pub fn square_length(s: Vec3) -> u64
    requires { AtMost (2 ^ 22) s }
    ensures value { result ≡ nat_abs (rule.dot s s) }
    ensures upper_bound { result ≤ 3 * 2 ^ 44 }
{
    (s.x * s.x + s.y * s.y + s.z * s.z) as u64
}

// The rule of a pointing and of a halfspace direction. The components are tested first: the square length of small ones fits.
pub fn is_vector(p: Vec3) -> bool
    ensures { result ≡ rule.is_vector p }
{
    is_small(p) && has_unit_length(p)
}

// Whether each component of p is within ±K.
fn is_small(p: Vec3) -> bool
    ensures { result ≡ (between (neg_ℤ K) K p.x && between (neg_ℤ K) K p.y && between (neg_ℤ K) K p.z) }
{
    within(p.x) && within(p.y) && within(p.z)
}

// Whether a is within ±K.
fn within(a: i64) -> bool
    ensures { result ≡ between (neg_ℤ K) K a }
{
    (-K..=K).contains(&a)
}

// The squares of K - 2 and K + 2, between which the square length of a pointing lies.
const SHORTEST_SQUARE: u64 = ((K - 2) * (K - 2)) as u64;

const LONGEST_SQUARE: u64 = ((K + 2) * (K + 2)) as u64;

// Whether the length of p is within K ± 2.
fn has_unit_length(p: Vec3) -> bool
    requires { AtMost (2 ^ 22) p }
    ensures { result ≡ between ((K -ℤ pos 2) *ℤ (K -ℤ pos 2)) ((K +ℤ pos 2) *ℤ (K +ℤ pos 2)) (rule.dot p p) }
{
    let s = square_length(p);
    (SHORTEST_SQUARE..=LONGEST_SQUARE).contains(&s)
}

// The vector whose numbers begin at number k.
// Kept: vectors among numbers, as the index that C lends (htm_add, htm_index_entry) is a list of numbers, six for an entry.
pub fn vec_in(xs: &[i64], k: usize) -> Vec3
    requires { k + 3 ≤ length xs.now }
    ensures { result ≡ vec_in xs.now k }
{
    Vec3 {
        x: xs[k],
        y: xs[k + 1],
        z: xs[k + 2],
    }
}

// Stores the numbers of v from number k on.
pub fn store(xs: &mut [i64], k: usize, v: Vec3)
    requires { k + 3 ≤ length xs.old }
    ensures { xs.new ≡ put k (three v) xs.old }
{
    xs[k] = v.x;
    xs[k + 1] = v.y;
    xs[k + 2] = v.z;
}
