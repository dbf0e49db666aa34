// Whether a halfspace is far from the bounding cap of a trixel, without E: `far` holds from some number on, so the least such number and one test of reach
// decide. The rule is `far` of classify/specs/Shape, the test by numbers stands in specs/LeastFar.
ghost use Rattle.std.specs.Prelude.{◌≡◌, true, false, ◌&&◌, ◌≤◌, ◌<◌};
ghost use Rattle.vector.specs.Numbers.{Kℕ};
ghost use Rattle.mesh_trixels.specs.Corners.{SmallTrixel};
ghost use Rattle.classify.specs.Shape as rule;
ghost use Rattle.classify.specs.Shape.{ahead, b_of, EOf};
ghost use Rattle.classify_prepared.specs.Measures.{SoundHalfspace, RaysOf};
ghost use Rattle.classify_cap.specs.Reach.{greatest_reach};
ghost use Rattle.classify_halfspace.specs.LeastFar.{far_by, FarBounds, LeastFar};

use classify_cap::reach::RayProducts;
use classify_prepared::{PreparedHalfspace, TrixelRays};
use limits::UNSIGNED_K as K;
use mesh::Trixel;

// What `far` asks of a halfspace and a middle b: D as `low`, f·f − D² as `rest`, f·b and b·b.
#[derive(Clone, Copy)]
struct FarTest {
    low: i64,
    rest: i64,
    along: i64,
    square: i64,
    ghost bounded: { FarBounds low rest along square },
}

// Whether D·n − f·b > 0 and (D·n − f·b)² > (f·f − D²)(b·b − n²).
fn far_at(h: &FarTest, n: u64) -> bool
    requires { n ≤ Kℕ }
    ensures { result ≡ far_by h.now.low h.now.rest h.now.along h.now.square n }
{
    let e = n as i64;
    let past = h.low * e - h.along;
    let rest = h.square - e * e;
    if rest < 0 {
        return 0 < past;
    }
    crate::square_exceeds(past, h.rest, rest)
}

// The least number at which f is far, by bisection: it is far at `high`, and not at `low`.
fn least_far(h: &FarTest, low: u64, high: u64) -> u64
    requires order { (low < high) × (high ≤ Kℕ) }
    requires near { far_by h.now.low h.now.rest h.now.along h.now.square low ≡ false }
    requires far { far_by h.now.low h.now.rest h.now.along h.now.square high ≡ true }
    ensures { LeastFar h.now.low h.now.rest h.now.along h.now.square result }
{
    classify_cap::bisection::bisect(low, high, |n| !far_at(h, n)) + 1
}

// Whether f is far at E, where it is far at K: by steps down from K, each four times the one before, until f is not far, or the number is reached.
fn far_down(h: &FarTest, p: &RayProducts) -> bool
    requires { far_by h.now.low h.now.rest h.now.along h.now.square Kℕ ≡ true }
    ensures { result ≡ far_by h.now.low h.now.rest h.now.along h.now.square (greatest_reach p.now.x0 p.now.x1 p.now.x2 p.now.s.now) }
{
    let mut high = K;
    for k in 0..10u64 {
        let n = K - (1u64 << (2 * k));
        if !far_at(h, n) {
            return classify_cap::reach::reaches_all(p, least_far(h, n, high));
        }
        if classify_cap::reach::reaches_all(p, n) {
            return true;
        }
        high = n;
    }
    far_at(h, 0) || classify_cap::reach::reaches_all(p, least_far(h, 0, high))
}

// Above it E is in a trixel of the deeper levels: there few steps are needed.
const NEAR: u64 = K - 64;

// Whether f is far at E, where it is far at K: by steps down from K where E is near it, as the first ray says, and else by E itself.
fn far_at_reach(h: &FarTest, p: &RayProducts) -> bool
    requires { far_by h.now.low h.now.rest h.now.along h.now.square Kℕ ≡ true }
    ensures { result ≡ far_by h.now.low h.now.rest h.now.along h.now.square (greatest_reach p.now.x0 p.now.x1 p.now.x2 p.now.s.now) }
{
    if classify_rays::reaches(p.x0, p.s.r0, NEAR) {
        return far_down(h, p);
    }
    far_at(h, classify_cap::reach::greatest_reach(p))
}

// Whether b is ahead of the rays, and f is far from the cap of b and E.
pub fn far_from(t: &Trixel, s: TrixelRays, q: PreparedHalfspace) -> bool
    requires small_trixel { SmallTrixel t.now × RaysOf t.now s }
    requires sound_halfspace { SoundHalfspace q }
    ensures { result ≡ ahead (b_of t.now) t.now && rule.far q.f q.low (b_of t.now) (EOf t.now) }
{
    let b = classify_cap::middle_of(t);
    let h = FarTest {
        low: q.low,
        rest: q.rest,
        along: vector_products::dot(q.f, b),
        square: vector_products::dot(b, b),
    };
    if !far_at(&h, K) {
        return false;
    }
    match classify_cap::reach::products_of(b, &s) {
        Some(p) => far_at_reach(&h, &p),
        None => false,
    }
}
