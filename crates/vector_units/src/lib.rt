// Unit and Scale in code: signed division, truncating toward zero. The rules are `unit` and `scale` of vector/specs/Vectors.
#![tactic(auto)]

ghost use Rattle.std.specs.Prelude.{◌≡◌, max, ◌-◌, ◌^◌, ◌≤◌, ◌<◌, pos, nat_abs, ◌*ℤ◌};
ghost use Rattle.algebra.proofs.Sizes.{Upto};
ghost use Rattle.vector.specs.Numbers.{K, quot};
ghost use Rattle.vector.proofs.Sizes.{AtMost, Small};
ghost use Rattle.vector.specs.Vectors as rule;

use limits::K;
use vector::Vec3;

// Unit(s): K times s, divided by the root of s·s.
pub fn unit(s: Vec3) -> Vec3
    requires { AtMost (2 ^ 22) s }
    ensures value { result ≡ rule.unit s }
    ensures small { Small result }
{
    divided(s, vector_roots::isqrt(vector_products::square_length(s)))
}

// Unit(s) where s is the sum of two near vectors: by the guess a little below 2K where that is the root, else by the general way.
pub fn unit_two(s: Vec3) -> Vec3
    requires { AtMost (2 ^ 22) s }
    ensures value { result ≡ rule.unit s }
    ensures small { Small result }
{
    let q = vector_products::square_length(s);
    let n = vector_roots::near_two(q);
    if vector_roots::is_root(q, n) {
        return divided(s, n);
    }
    unit(s)
}

// Scale(c): K times c, divided by the largest absolute component.
pub fn scale(c: Vec3) -> Vec3
    requires { AtMost (2 ^ 41) c }
    ensures value { result ≡ rule.scale c }
    ensures small { Small result }
{
    divided(c, largest(c))
}

// The largest absolute component of c.
pub fn largest(c: Vec3) -> u64
    requires { AtMost (2 ^ 41) c }
    ensures { result ≡ rule.largest c }
{
    c.x.unsigned_abs()
        .max(c.y.unsigned_abs())
        .max(c.z.unsigned_abs())
}

// K times s, divided by n: each component truncated toward zero, and all zero if n is 0.
fn divided(s: Vec3, n: u64) -> Vec3
    requires at_most { AtMost (2 ^ 41) s }
    requires n_bound { n ≤ 2 ^ 41 }
    ensures { result ≡ rule.divided_by n s }
{
    if n == 0 {
        return Vec3 { x: 0, y: 0, z: 0 };
    }
    Vec3 {
        x: part(s.x, n),
        y: part(s.y, n),
        z: part(s.z, n),
    }
}

// K times a, divided by n, truncated toward zero.
fn part(a: i64, n: u64) -> i64
    requires upto { Upto (2 ^ 41) a }
    requires n_nonzero { (0 < n) × (n ≤ 2 ^ 41) }
    ensures { result ≡ quot (K *ℤ a) (pos n) }
{
    K * a / (n as i64)
}
