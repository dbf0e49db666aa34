// The bounding cap of a trixel: b, E and the clearance beyond which no squares need be compared. The rules are `b_of` and `EOf` of classify/specs/Shape,
// what is stored of it stands in specs/Middle.
#![tactic(auto)]

ghost use Rattle.std.specs.Prelude.{◌≡◌, ◌-◌, ◌*◌, ◌^◌, ◌≤◌};
ghost use Rattle.algebra.proofs.Sizes.{Upto};
ghost use Rattle.vector.proofs.Sizes.{AtMost, Small};
ghost use Rattle.vector.specs.Vectors as vectors;
ghost use Rattle.mesh_trixels.specs.Corners.{SmallTrixel};
ghost use Rattle.classify.specs.Shape.{b_of};
ghost use Rattle.classify_prepared.specs.Measures.{RaysOf};
ghost use Rattle.classify_cap.specs.Reach.{greatest_reach};
ghost use Rattle.classify_cap.specs.Middle.{root_above, clearance_of, IsBoundingCap, cap_ahead, cap_behind};

use crate::reach::RayProducts;
use classify_prepared::TrixelRays;
use mesh::Trixel;
use vector::Vec3;

pub mod bisection;
pub mod reach;

// The clearance where no halfspace is settled: nothing is beyond it.
// Kept: a number and no Option, as `clearance_of` of specs/Middle gives one, so that `far`, `encloses` and `is_close` compare once and match nothing.
const NEVER: i64 = 4611686018427387904;

// Twice K: a clearance is so many times a number that is above the root of the rest.
const TWO_K: u64 = 2 * limits::UNSIGNED_K;

// How far a middle b reaches that is ahead of the rays: E as `reach`, b·b − E² as `rest`, and the bound beyond which a halfspace is settled as `clearance`.
#[derive(Clone, Copy)]
pub struct CapReach {
    pub reach: i64,
    pub rest: i64,
    pub clearance: i64,
}

// The middle b of a trixel, and where it is ahead of the rays how far it reaches.
// Kept: `IsBoundingCap` is a clause, as `RaysOf` is (classify_prepared): a trixel in the cap would have to be that of the rays beside it, by a clause again.
#[derive(Clone, Copy)]
pub struct BoundingCap {
    pub b: Vec3,
    pub ahead: Option<CapReach>,
}

// b = Unit(v0 + v1 + v2)
pub fn middle_of(t: &Trixel) -> Vec3
    requires { SmallTrixel t.now }
    ensures value { result ≡ b_of t.now }
    ensures small { Small result }
{
    vector_units::unit(vector_products::sum(vector_products::sum(t.v0, t.v1), t.v2))
}

// A number whose square is not below s, for s up to 2^42: the first of 256, 512, 1024 and so on, or 2^21.
fn root_above(s: u64) -> u64
    ensures { result ≡ root_above s }
{
    for k in 8..21u64 {
        let r = 1u64 << k;
        if s < r * r {
            return r;
        }
    }
    TWO_K
}

// The bound beyond which every halfspace is settled, for the rest b·b − E² and E: 2^21 times a number whose square is not below the rest. It is out of
// reach where there is no rest, or that number is above E.
fn clearance_of(rest: i64, reach: u64) -> i64
    requires { Upto (2 ^ 63 - 1) rest }
    ensures { result ≡ clearance_of rest reach }
{
    if rest <= 0 {
        return NEVER;
    }
    let r = root_above(rest as u64);
    if reach < r {
        return NEVER;
    }
    (TWO_K * r) as i64
}

// The cap where b is not ahead of every ray: E is not needed.
fn cap_behind(b: Vec3) -> BoundingCap
    ensures { result ≡ cap_behind b }
{
    BoundingCap { b, ahead: None }
}

// The cap where b is ahead of every ray, with E.
fn cap_ahead(b: Vec3, p: &RayProducts) -> BoundingCap
    requires { Small b }
    ensures { result ≡ cap_ahead b (greatest_reach p.now.x0 p.now.x1 p.now.x2 p.now.s.now) }
{
    let n = crate::reach::greatest_reach(p);
    let e = n as i64;
    let rest = vector_products::dot(b, b) - e * e;
    BoundingCap {
        b,
        ahead: Some(CapReach {
            reach: e,
            rest,
            clearance: clearance_of(rest, n),
        }),
    }
}

// The middle b of a trixel with its E, and what is left of b·b beside E².
pub fn cap_of(t: &Trixel, b: Vec3, s: TrixelRays) -> BoundingCap
    requires b_value { (b ≡ b_of t.now) × Small b }
    requires rays_of { RaysOf t.now s }
    ensures { IsBoundingCap t.now result }
{
    match crate::reach::products_of(b, &s) {
        Some(p) => cap_ahead(b, &p),
        None => cap_behind(b),
    }
}
