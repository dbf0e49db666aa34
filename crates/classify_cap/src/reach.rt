// E, the reach of a trixel's middle b: near K by steps down from it, in a root by its rays, else by a number near it. The rule is `EOf` of
// classify/specs/Shape, what is searched for stands in specs/Reach.
ghost use Rattle.std.specs.Prelude.{◌≡◌, true, false, MatchOption, pos, ◌*◌, ◌/◌, ◌^◌, ◌≤◌, ◌<◌, nat_abs};
ghost use Rattle.vector.specs.Numbers.{Kℕ};
ghost use Rattle.vector.specs.Vectors as vectors;
ghost use Rattle.vector.proofs.Sizes.{AtMost, Small};
ghost use Rattle.classify.specs.Shape.{positive};
ghost use Rattle.classify_prepared.specs.Measures.{IsRay, OwnRays};
ghost use Rattle.classify_cap.specs.Reach.{reach_all, greatest_reach, Bounded, OnAxes, Spanned, all_positive, ProductsOf};

use classify_prepared::{Ray, TrixelRays};
use limits::UNSIGNED_K as K;
use vector::Vec3;

// The square of K: how long a ray of a root is.
const K_SQUARE: u64 = K * K;

// The square of K over 2^10, in which near_root counts, and how much of it may be lacking where one step is enough.
const UPPER_K_SQUARE: u64 = K_SQUARE / 1024;

const NEAR: u64 = 16 * K;

// Kept: as in lib.rt, where it is a factor of the clearance: this is what a root is divided by, and the edit near_root_underflow is of it.
const TWO_K: u64 = 2 * K;

// What a product with a ray is divided by before it is squared.
// Kept: the like of UPPER in classify_rays, whose filter must be right: this is of a guess, which is tested, and might be another number.
const UPPER: u64 = 2147483648;

// The products of a middle with the rays of a trixel, beside the rays.
#[derive(Clone, Copy)]
pub struct RayProducts<'a> {
    pub x0: u64,
    pub x1: u64,
    pub x2: u64,
    pub s: &'a TrixelRays,
    pub ghost bounded: { Bounded x0 x1 x2 s.now },
}

// Where E lies: `low` is reached, and no number from `high` up to K is.
#[derive(Clone, Copy)]
struct Span {
    low: u64,
    high: u64,
}

// b·r for the ray r, where it is positive.
fn along(b: Vec3, y: Ray) -> Option<u64>
    requires small { Small b }
    requires at_most { AtMost (2 ^ 41) y.r }
    ensures { MatchOption result (positive (vectors.dot b y.r) ≡ false) (λ x. (positive (vectors.dot b y.r) ≡ true) × (vectors.dot b y.r ≡ pos x) × (x ≤ 3 * 2 ^ 61)) }
{
    let x = vector_products::dot(b, y.r);
    if x <= 0 {
        return None;
    }
    Some(x as u64)
}

// The products of b with the rays of s, where all are positive.
pub fn products_of(b: Vec3, s: &TrixelRays) -> Option<RayProducts<'_>>
    requires small { Small b }
    requires own_rays { OwnRays s.now }
    ensures { MatchOption result (all_positive b s.now ≡ false) (λ p. (all_positive b s.now ≡ true) × (p.s.now ≡ s.now) × ProductsOf b s.now p.x0 p.x1 p.x2) }
{
    let x0 = along(b, s.r0)?;
    let x1 = along(b, s.r1)?;
    let x2 = along(b, s.r2)?;
    Some(RayProducts { x0, x1, x2, s })
}

// Whether x² ≥ n² (r·r) for each ray r and its x.
pub fn reaches_all(p: &RayProducts, n: u64) -> bool
    requires { n ≤ Kℕ }
    ensures { result ≡ reach_all p.now.x0 p.now.x1 p.now.x2 p.now.s.now n }
{
    let s = p.s;
    classify_rays::reaches(p.x0, s.r0, n)
        && classify_rays::reaches(p.x1, s.r1, n)
        && classify_rays::reaches(p.x2, s.r2, n)
}

// A span of E by two steps down from K: E is that near K where the trixel is small. Else the span begins at 0.
fn near_top(p: &RayProducts) -> Span
    ensures { Spanned p.now.x0 p.now.x1 p.now.x2 p.now.s.now result.low result.high }
{
    let mut high = K + 1;
    for step in 1..3 {
        let n = K - step;
        if reaches_all(p, n) {
            return Span { low: n, high };
        }
        high = n;
    }
    Span { low: 0, high }
}

// A span, narrowed by a test at n where n is in it.
fn tested(p: &RayProducts, span: Span, n: u64) -> Span
    requires { Spanned p.now.x0 p.now.x1 p.now.x2 p.now.s.now span.low span.high }
    ensures { Spanned p.now.x0 p.now.x1 p.now.x2 p.now.s.now result.low result.high }
{
    if n <= span.low || span.high <= n {
        return span;
    }
    if reaches_all(p, n) {
        Span {
            low: n,
            high: span.high,
        }
    } else {
        Span {
            low: span.low,
            high: n,
        }
    }
}

// E by bisection of a span.
fn bisected(p: &RayProducts, span: Span) -> u64
    requires { Spanned p.now.x0 p.now.x1 p.now.x2 p.now.s.now span.low span.high }
    ensures value { result ≡ greatest_reach p.now.x0 p.now.x1 p.now.x2 p.now.s.now }
    ensures upper_bound { result ≤ Kℕ }
{
    crate::bisection::bisect(span.low, span.high, |n| reaches_all(p, n))
}

// Whether r lies on an axis and is 2^40 long, as a ray of a root: then its largest component is also the sum of all three.
fn on_axis(r: Vec3) -> bool
    requires { AtMost (2 ^ 41) r }
    ensures { result ≡ true → nat_abs (vectors.dot r r) ≡ 2 ^ 80 }
{
    vector_units::largest(r) == K_SQUARE
        && r.x.unsigned_abs() + r.y.unsigned_abs() + r.z.unsigned_abs() == K_SQUARE
}

// Whether all three rays do.
fn on_axes(s: &TrixelRays) -> bool
    requires { OwnRays s.now }
    ensures { result ≡ true → OnAxes s.now }
{
    on_axis(s.r0.r) && on_axis(s.r1.r) && on_axis(s.r2.r)
}

// About E² / 2^10 by one ray, and not above it: (x / 2^31)² over its height, rounded up.
fn square_by(x: u64, y: Ray) -> u64
    requires x_bound { x ≤ 3 * 2 ^ 61 }
    requires ray { IsRay y.r y }
{
    let u = x / UPPER;
    u * u / (y.height + 5)
}

// A number near the root of 2^10 q, where q is at most K² / 2^10. With e for what q lacks and f = e / 2^11 it is K − (2^10 e + f²) / 2K where e is
// small, else two of Newton's steps from there.
fn near_root(q: u64) -> u64
    requires { q ≤ 2 ^ 30 }
    ensures { result < 2 ^ 46 }
{
    let e = UPPER_K_SQUARE - q;
    let f = e / 2048;
    let n = K - (1024 * e + f * f).div_ceil(TWO_K);
    if e < NEAR {
        return n;
    }
    vector_roots::newton(1024 * q, vector_roots::newton(1024 * q, n))
}

// A number near E: the root of the least of the squares by the three rays.
fn near_reach(p: &RayProducts) -> u64
    ensures { result < 2 ^ 46 }
{
    let s = p.s;
    let q = square_by(p.x0, s.r0)
        .min(square_by(p.x1, s.r1))
        .min(square_by(p.x2, s.r2));
    near_root(q.min(UPPER_K_SQUARE))
}

// E, where each x is b·r for its ray r, and positive. Where a ray is 2^40 long x² ≥ E² (r·r) is x ≥ 2^40 E.
pub fn greatest_reach(p: &RayProducts) -> u64
    ensures value { result ≡ greatest_reach p.now.x0 p.now.x1 p.now.x2 p.now.s.now }
    ensures upper_bound { result ≤ Kℕ }
{
    let span = near_top(p);
    if 0 < span.low {
        return bisected(p, span);
    }
    if on_axes(p.s) {
        return K.min(p.x0.min(p.x1).min(p.x2) / K_SQUARE);
    }
    let n = near_reach(p);
    bisected(p, tested(p, tested(p, span, n + 1), n))
}
