// The class of a trixel for one halfspace: by the bounding cap, by the rays when that is inconclusive, and by the edges when the rays are. The rule
// is `halfspace_class` of classify/specs/Classes, the tests on the way stand in specs/Halfspaces.
#![tactic(auto)]

ghost use Rattle.std.specs.Prelude.{◌≡◌, true, ◌&&◌, ◌+◌, ◌-◌, ◌*◌, ◌^◌, ◌≤◌, ltb, ◌*ℤ◌};
ghost use Rattle.std.specs.Int.Signed.{lt_z};
ghost use Rattle.algebra.proofs.Sizes.{Upto};
ghost use Rattle.vector.proofs.Sizes.{Small};
ghost use Rattle.mesh_trixels.specs.Corners.{SmallTrixel};
ghost use Rattle.classify.specs.Shape as rule;
ghost use Rattle.classify.specs.Shape.{positive, ahead, b_of, EOf, volume};
ghost use Rattle.classify_halfspace.specs.Halfspaces.{enclosed, prepared_class, class_within, class_apart, apart_class, edges_class, rays_class};
ghost use Rattle.classify_prepared.specs.Measures.{SoundHalfspace, Rest, RaysOf};
ghost use Rattle.classify_cap.specs.Middle.{IsBoundingCap};

use classify::Class;
use classify_cap::BoundingCap;
use classify_prepared::{PreparedHalfspace, TrixelRays};
use classify_rays::Passed;
use mesh::Trixel;
use vector::Vec3;

pub mod least;

// From here on m² is above every product of two rests: 2^42 less what the upper bits of m may lack.
const LARGE: u64 = 4398046510080;

// Whether m² > p q, in two words.
fn square_passes_exactly(m: u64, p: u64, q: u64) -> bool
    ensures { result ≡ ltb (p * q) (m * m) }
{
    wide::less(wide::product(p, q), wide::product(m, m))
}

// Whether m² > p q. It is so for a large m; else, with a = m / 2^10, u = p / 2^10 and v = q / 2^10, it is sure where (u + 1)(v + 1) ≤ a², and sure
// not to be where (a + 1)² ≤ u v.
// Kept: two tests as in `filtered` of classify_rays; one function of both would take the two bounds of three numbers, and be no shorter.
fn square_passes(m: u64, p: u64, q: u64) -> bool
    requires { (p ≤ 3 * 2 ^ 40) × (q ≤ 3 * 2 ^ 40) }
    ensures { result ≡ ltb (p * q) (m * m) }
{
    if m >= LARGE {
        return true;
    }
    let a = m / 1024;
    let u = p / 1024;
    let v = q / 1024;
    if classify_rays::product_within(u + 1, v + 1, a) {
        return true;
    }
    if classify_rays::square_within(a + 1, u, v) {
        return false;
    }
    square_passes_exactly(m, p, q)
}

// Whether x > 0 and x² > p q.
fn square_exceeds(x: i64, p: i64, q: i64) -> bool
    requires upto { Upto (2 ^ 63 - 1) x }
    requires rest { Rest p × Rest q }
    ensures { result ≡ positive x && lt_z (p *ℤ q) (x *ℤ x) }
{
    if x <= 0 {
        return false;
    }
    square_passes(x as u64, p as u64, q as u64)
}

// Whether b is ahead of the rays, D·E − c > 0 and (D·E − c)² > (f·f − D²)(b·b − E²), with c = f·b.
fn far(q: PreparedHalfspace, t: &Trixel, m: BoundingCap) -> bool
    requires sound_halfspace { SoundHalfspace q }
    requires bounding_cap { IsBoundingCap t.now m }
    ensures { result ≡ ahead (b_of t.now) t.now && rule.far q.f q.low (b_of t.now) (EOf t.now) }
{
    let Some(c) = m.ahead else {
        return false;
    };
    let past = q.low * c.reach - vector_products::dot(q.f, m.b);
    c.clearance <= past || square_exceeds(past, q.rest, c.rest)
}

// Whether b is ahead of the rays and its cap by E lies in that of f and G, by a test that is enough: with M = f·b − G·E and S = b·b − E² it asks that
// both are positive, S·G ≤ M·E and (f·f − D²) S < M².
fn encloses(q: PreparedHalfspace, t: &Trixel, m: BoundingCap) -> bool
    requires sound_halfspace { SoundHalfspace q }
    requires bounding_cap { IsBoundingCap t.now m }
    ensures { result ≡ ahead (b_of t.now) t.now && enclosed q.f q.low q.high (b_of t.now) (EOf t.now) }
{
    let Some(c) = m.ahead else {
        return false;
    };
    let inward = vector_products::dot(q.f, m.b) - q.high * c.reach;
    if c.clearance <= inward {
        return true;
    }
    if c.rest <= 0 {
        return false;
    }
    if inward * c.reach < c.rest * q.high {
        return false;
    }
    square_exceeds(inward, q.rest, c.rest)
}

// The class where within holds.
// Kept: within and apart are two words of the rule, and one function of both would take the two classes beside d at each call.
pub fn class_within(d: i64) -> Class
    ensures { result ≡ class_within d }
{
    if d < 0 {
        return Class::Outside;
    }
    Class::Full
}

// The class where apart holds.
pub fn class_apart(d: i64) -> Class
    ensures { result ≡ class_apart d }
{
    if d < 0 {
        return Class::Full;
    }
    Class::Outside
}

// Whether f·P < 0 and (P·P)(f·f − D²) < (f·P)², for the normal P of an edge.
fn beyond_edge(q: PreparedHalfspace, p: Vec3) -> bool
    requires sound_halfspace { SoundHalfspace q }
    requires small { Small p }
    ensures { result ≡ rule.beyond_edge q.f q.low p }
{
    let behind = -vector_products::dot(q.f, p);
    square_exceeds(behind, q.rest, vector_products::dot(p, p))
}

// The class by the edges, where within does not hold, nor apart by the bounding cap.
fn class_by_edges(t: &Trixel, q: PreparedHalfspace) -> Class
    requires small_trixel { SmallTrixel t.now }
    requires sound_halfspace { SoundHalfspace q }
    ensures { result ≡ edges_class q t.now }
{
    if beyond_edge(q, t.p0) || beyond_edge(q, t.p1) || beyond_edge(q, t.p2) {
        return class_apart(q.d);
    }
    Class::Partial
}

// The class by the rays, where apart does not hold by the bounding cap, and by the edges where not all rays pass. A great circle is beyond no edge.
fn class_by_rays(t: &Trixel, s: TrixelRays, q: PreparedHalfspace) -> Class
    requires rays_of { RaysOf t.now s × (s.oriented ≡ true) }
    requires small_trixel { SmallTrixel t.now }
    requires sound_halfspace { SoundHalfspace q }
    ensures { result ≡ rays_class q t.now }
{
    let all = classify_rays::all_pass(q.f, q.high, s);
    if all {
        return class_within(q.d);
    }
    if q.low <= 0 {
        return Class::Partial;
    }
    class_by_edges(t, q)
}

// The class by the middle, where within does not hold, and by the edges where f is not far.
fn class_by_middle(t: &Trixel, s: TrixelRays, q: PreparedHalfspace) -> Class
    requires t_value { positive (volume t.now) ≡ true }
    requires rays_of { RaysOf t.now s }
    requires small_trixel { SmallTrixel t.now }
    requires sound_halfspace { SoundHalfspace q }
    ensures { result ≡ apart_class q t.now }
{
    let apart = crate::least::far_from(t, s, q);
    if apart {
        class_apart(q.d)
    } else {
        class_by_edges(t, q)
    }
}

// The class of t for the halfspace that q was prepared from. Of many halfspaces most are far from the trixel or enclose it; rays and edges are for the others.
pub fn classify_one(t: &Trixel, s: TrixelRays, m: BoundingCap, q: PreparedHalfspace) -> Class
    requires rays_of { RaysOf t.now s }
    requires bounding_cap { IsBoundingCap t.now m }
    requires small_trixel { SmallTrixel t.now }
    requires sound_halfspace { SoundHalfspace q }
    ensures { result ≡ prepared_class q t.now }
{
    if !s.oriented {
        return class_by_edges(t, q);
    }
    if far(q, t, m) {
        return class_apart(q.d);
    }
    if encloses(q, t, m) {
        return class_within(q.d);
    }
    class_by_rays(t, s, q)
}

// The same by the rays first: all pass is within, and one that passes and one that does not is partial; only where none passes b is found. No bounding cap
// is needed.
pub fn classify_by_rays(t: &Trixel, s: TrixelRays, q: PreparedHalfspace) -> Class
    requires rays_of { RaysOf t.now s }
    requires small_trixel { SmallTrixel t.now }
    requires sound_halfspace { SoundHalfspace q }
    ensures { result ≡ prepared_class q t.now }
{
    if !s.oriented {
        return class_by_edges(t, q);
    }
    let passed = classify_rays::count_passed(q.f, q.high, s);
    match passed {
        Passed::All => class_within(q.d),
        Passed::Some => Class::Partial,
        Passed::None => class_by_middle(t, s, q),
    }
}
