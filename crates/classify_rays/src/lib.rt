// A halfspace against the rays of a trixel: squares compared by their upper bits in one word, and exactly in two words when that is inconclusive. The rule
// is `passes` of classify/proofs/RaysFirst; what the filter decides stands in specs/Rays.
#![tactic(auto)]

ghost use Rattle.std.specs.Prelude.{◌≡◌, ◌&&◌, ◌+◌, ◌*◌, ◌^◌, ◌≤◌, ◌<◌, leb, nat_abs};
ghost use Rattle.algebra.proofs.Sizes.{Upto};
ghost use Rattle.wide.specs.Value.{value_of};
ghost use Rattle.vector.proofs.Sizes.{AtMost, Small};
ghost use Rattle.vector.specs.Vectors as vectors;
ghost use Rattle.classify_prepared.specs.Measures.{square_of, IsRay, OwnRays};
ghost use Rattle.classify.proofs.RaysFirst as rule;
ghost use Rattle.classify_rays.specs.Rays.{passed_of, filter_reach};

use classify_prepared::{Ray, TrixelRays};
use vector::Vec3;
use wide::Wide;

// How many of the three rays of a trixel pass.
// Kept: None, Some and All, as the edit passed_none_is_some and `passed_of` of specs/Rays name them; no Option, as there are three.
#[derive(Clone, Copy)]
pub enum Passed {
    None,
    Some,
    All,
}

// Whether a·b ≤ s².
pub fn product_within(a: u64, b: u64, s: u64) -> bool
    requires { (a ≤ 2 ^ 32 + 1) × (b < 2 ^ 32) × (s < 2 ^ 32) }
    ensures { result ≡ leb (a * b) (s * s) }
{
    a * b <= s * s
}

// Whether s² ≤ a·b.
pub fn square_within(s: u64, a: u64, b: u64) -> bool
    requires { (s < 2 ^ 32) × (a ≤ 2 ^ 32 + 1) × (b < 2 ^ 32) }
    ensures { result ≡ leb (s * s) (a * b) }
{
    s * s <= a * b
}

// a²
fn squared(a: i64) -> Wide
    requires { Upto (2 ^ 41) a }
    ensures { (value_of result ≡ nat_abs a * nat_abs a) × (value_of result ≤ 2 ^ 82) }
{
    let n = a.unsigned_abs();
    wide::product(n, n)
}

// r·r
fn square_length(r: Vec3) -> Wide
    requires { AtMost (2 ^ 41) r }
    ensures { value_of result ≡ nat_abs (vectors.dot r r) }
{
    wide::sum(wide::sum(squared(r.x), squared(r.y)), squared(r.z))
}

// Whether x² ≥ g² (r·r), in two words. It is rarely asked.
#[inline(never)]
fn reaches_exactly(x: u64, r: Vec3, g: u64) -> bool
    requires { (x ≤ 3 * 2 ^ 61) × (g ≤ 2 ^ 21) × AtMost (2 ^ 41) r }
    ensures { result ≡ leb (g * g * nat_abs (vectors.dot r r)) (x * x) }
{
    let given = wide::product(x, x);
    let wanted = wide::times(square_length(r), g * g);
    !wide::less(given, wanted)
}

// What a product with a ray is divided by in the filter.
const UPPER: u64 = 2147483648;

// Whether x² ≥ g² (r·r) for the ray r of height h, where a filter is sure. With p = g² / 2^10 and q = x / 2^31 it is so where (p + 1)(h + 5) ≤ q², and not so
// where (q + 1)² ≤ p h.
// Kept: two tests as in `square_passes` of classify_halfspace; one function of both would take the two bounds of three numbers, and be no shorter.
fn filtered(x: u64, h: u64, g: u64) -> Option<bool>
    requires { (x ≤ 3 * 2 ^ 61) × (g ≤ 2 ^ 21) × (h + 5 < 2 ^ 32) }
    ensures { result ≡ filter_reach x h g }
{
    let p = g * g / 1024;
    let q = x / UPPER;
    if product_within(p + 1, h + 5, q) {
        return Some(true);
    }
    if square_within(q + 1, p, h) {
        return Some(false);
    }
    None
}

// Whether x² ≥ g² (r·r) for the ray r: by the filter, and in two words where it is not sure.
#[inline(always)]
pub fn reaches(x: u64, y: Ray, g: u64) -> bool
    requires { (x ≤ 3 * 2 ^ 61) × (g ≤ 2 ^ 21) × IsRay y.r y }
    ensures { result ≡ leb (g * g * square_of y) (x * x) }
{
    match filtered(x, y.height, g) {
        Some(reached) => reached,
        None => reaches_exactly(x, y.r, g),
    }
}

// Whether f·r > 0 and (f·r)² ≥ g² (r·r) for the ray r.
fn passes(f: Vec3, g: i64, y: Ray) -> bool
    requires small { Small f }
    requires upto { Upto (2 ^ 21) g }
    requires ray { IsRay y.r y }
    ensures { result ≡ rule.passes f g y.r }
{
    let x = vector_products::dot(f, y.r);
    if x <= 0 {
        return false;
    }
    reaches(x as u64, y, g.unsigned_abs())
}

// Whether all rays of a trixel pass: the next is tried where those before it do.
pub fn all_pass(f: Vec3, g: i64, s: TrixelRays) -> bool
    requires small { Small f }
    requires upto { Upto (2 ^ 21) g }
    requires own_rays { OwnRays s }
    ensures { result ≡ rule.passes f g s.r0.r && (rule.passes f g s.r1.r && rule.passes f g s.r2.r) }
{
    passes(f, g, s.r0) && passes(f, g, s.r1) && passes(f, g, s.r2)
}

// How many rays of a trixel pass: the third is tried where the other two agree.
pub fn count_passed(f: Vec3, g: i64, s: TrixelRays) -> Passed
    requires small { Small f }
    requires upto { Upto (2 ^ 21) g }
    requires own_rays { OwnRays s }
    ensures { result ≡ passed_of (rule.passes f g s.r0.r) (rule.passes f g s.r1.r) (rule.passes f g s.r2.r) }
{
    let first = passes(f, g, s.r0);
    if passes(f, g, s.r1) != first || passes(f, g, s.r2) != first {
        return Passed::Some;
    }
    if first { Passed::All } else { Passed::None }
}
