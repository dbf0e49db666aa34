// What is measured once: f, D, G and f·f − D² of a halfspace, the rays of a trixel with their heights and the sign of V. The rules stand in
// classify/specs/Shape, what is stored in specs/Measures.
#![tactic(auto)]

ghost use Rattle.std.specs.Prelude.{◌≡◌, true, ◌^◌, ◌≤◌, pos};
ghost use Rattle.algebra.proofs.Sizes.{Upto};
ghost use Rattle.vector.specs.Numbers.{Kℕ};
ghost use Rattle.vector.specs.Vectors.{is_vector, cross};
ghost use Rattle.vector.proofs.Sizes.{AtMost, Small};
ghost use Rattle.mesh_trixels.specs.Corners.{SmallTrixel};
ghost use Rattle.region.specs.Regions.{halfspace_from};
ghost use Rattle.region.specs.Building.{is_offset};
ghost use Rattle.classify.specs.Shape.{f_of, DOf, GOf, ray0};
ghost use Rattle.classify_prepared.specs.Measures as rule;
ghost use Rattle.classify_prepared.specs.Measures.{upper_square, height_of, IsRay, RaysOf};

use limits::UNSIGNED_K as K;
use mesh::Trixel;
use vector::Vec3;

pub mod prepared_region;
pub mod preparing;

// A halfspace prepared for classifying: f and d, D as `low`, G as `high`, and f·f − D² as `rest`.
// Kept: `SoundHalfspace` is a clause and no invariant: the rule `prepared` makes one of any halfspace, good or not, and the lists begin with NO_HALFSPACE.
#[derive(Clone, Copy)]
pub struct PreparedHalfspace {
    pub f: Vec3,
    pub d: i64,
    pub low: i64,
    pub high: i64,
    pub rest: i64,
}

// What stands in the places of a list that are not used.
pub const NO_HALFSPACE: PreparedHalfspace = PreparedHalfspace {
    f: Vec3 { x: 0, y: 0, z: 0 },
    d: 0,
    low: 0,
    high: 0,
    rest: 0,
};

// A ray r, and its height, which is near (r·r) / 2^52.
// Kept: that a ray has its own height, and its size, are clauses (`IsRay`), as `spanned_is` and `axes_reach` of classify_cap and `by_least` of
// classify_halfspace speak of rays with any height.
#[derive(Clone, Copy)]
pub struct Ray {
    pub r: Vec3,
    pub height: u64,
}

// The rays of a trixel, and whether V > 0.
// Kept: `RaysOf` is a clause: `classify_one` takes a trixel, its rays and its cap, and with a trixel in the rays and in the cap, that both have the same one
// would be a clause in its place.
#[derive(Clone, Copy)]
pub struct TrixelRays {
    pub r0: Ray,
    pub r1: Ray,
    pub r2: Ray,
    pub oriented: bool,
}

// f: n, or −n for d < 0.
fn turned(n: Vec3, d: i64) -> Vec3
    requires { Small n }
    ensures { (result ≡ f_of (halfspace_from n d)) × Small result }
{
    if d < 0 {
        return vector_products::negated(n);
    }
    n
}

// D: e·K, divided by K + 2.
fn low_of(e: u64) -> i64
    requires { e ≤ Kℕ }
    ensures { (result ≡ DOf (pos e)) × Upto Kℕ result }
{
    (e * K / (K + 2)) as i64
}

// G: e·K, divided by K − 2, and 1.
fn high_of(e: u64) -> i64
    requires { e ≤ Kℕ }
    ensures { (result ≡ GOf (pos e)) × Upto (2 ^ 21) result }
{
    (e * K / (K - 2) + 1) as i64
}

// Prepares the halfspace of a direction n and an offset d.
pub fn prepared(n: Vec3, d: i64) -> PreparedHalfspace
    requires n_value { is_vector n ≡ true }
    requires d_value { is_offset d ≡ true }
    ensures { result ≡ rule.prepared (halfspace_from n d) }
{
    let f = turned(n, d);
    let e = d.unsigned_abs();
    let low = low_of(e);
    PreparedHalfspace {
        f: f,
        d: d,
        low: low,
        high: high_of(e),
        rest: vector_products::dot(f, f) - low * low,
    }
}

// (|a| / 2^10)²
fn upper_square(a: i64) -> u64
    requires { Upto (2 ^ 41) a }
    ensures { (result ≡ upper_square a) × (result ≤ 2 ^ 62) }
{
    let n = a.unsigned_abs() / 1024;
    n * n
}

// 2^32: the sum of a ray's three upper squares is divided by it.
const HEIGHT: u64 = 4294967296;

// The height of r: its three upper squares, divided by 2^32.
fn height(r: Vec3) -> u64
    requires { AtMost (2 ^ 41) r }
    ensures { result ≡ height_of r }
{
    (upper_square(r.x) + upper_square(r.y) + upper_square(r.z)) / HEIGHT
}

// The ray r, with its height.
fn ray_of(r: Vec3) -> Ray
    requires { AtMost (2 ^ 41) r }
    ensures { IsRay r result }
{
    Ray {
        r: r,
        height: height(r),
    }
}

// The ray a × b.
fn cross_ray(a: Vec3, b: Vec3) -> Ray
    requires small { Small a }
    requires small_2 { Small b }
    ensures { IsRay (cross a b) result }
{
    ray_of(vector_products::cross(a, b))
}

// The first ray of a trixel: P1 × P2.
pub fn first_ray(t: &Trixel) -> Vec3
    requires { SmallTrixel t.now }
    ensures { result ≡ ray0 t.now }
{
    vector_products::cross(t.p1, t.p2)
}

// The rays of a trixel whose first ray is r: a child has its first ray from the trixel that was cut.
pub fn measured(t: &Trixel, r: Vec3) -> TrixelRays
    requires small_trixel { SmallTrixel t.now }
    requires r_value { r ≡ ray0 t.now }
    ensures { RaysOf t.now result }
{
    TrixelRays {
        r0: ray_of(r),
        r1: cross_ray(t.p2, t.p0),
        r2: cross_ray(t.p0, t.p1),
        oriented: 0 < vector_products::dot(t.p0, r),
    }
}

// What belongs to a trixel, put together anew. What is handed to a function that stands apart goes through memory: so it is the copy that does, and only
// where it is made.
// Kept: tried without this copy and those of covering_walk, and a cover of 100 halfspaces in one convex takes 12 % longer, and 384 bytes more of stack.
pub fn copied(s: TrixelRays) -> TrixelRays
    ensures { result ≡ s }
{
    let r0 = s.r0;
    let r1 = s.r1;
    let r2 = s.r2;
    TrixelRays {
        r0: r0,
        r1: r1,
        r2: r2,
        oriented: s.oriented,
    }
}
