// Anchors: a halfspace may be settled for every trixel close to a trixel's middle. specs/Anchor defines settled and close.
ghost use Rattle.std.specs.Prelude.{◌≡◌, ◌+◌, ◌*◌, ◌≤◌, ◌^◌, nat_abs, ◌-ℤ◌};
ghost use Rattle.classify_active.specs.Anchor.{IsAnchor, close_to, settled_by};
ghost use Rattle.vector.proofs.Sizes.{Small};
ghost use Rattle.classify_prepared.specs.Measures.{SoundHalfspace};
ghost use Rattle.classify_cap.specs.Middle.{IsBoundingCap};

use crate::anchors::Anchor;
use classify::Class;
use classify_cap::BoundingCap;
use classify_prepared::PreparedHalfspace;
use limits::UNSIGNED_K as K;
use mesh::Trixel;
use vector::Vec3;

// A margin that no halfspace reaches.
// Kept: a number and no Option, as `settled_by` of specs/Anchor compares with it, twice for each halfspace.
const NEVER: i64 = 17592186044416;

// Half of it: the margin of a clearance up to here is still below it.
const WIDEST_CLEARANCE: i64 = NEVER / 2;

// The anchor at the middle of t. The margin is seven eighths of the clearance: a trixel below has half the clearance at most, and the rest is left for steps.
pub fn anchor_of(t: &Trixel, m: BoundingCap) -> Anchor
    requires { IsBoundingCap t.now m }
    ensures { IsAnchor result }
{
    let b = m.b;
    let Some(c) = m.ahead else {
        return Anchor {
            b,
            reach: 0,
            margin: NEVER,
        };
    };
    if c.clearance <= WIDEST_CLEARANCE {
        return Anchor {
            b,
            reach: c.reach,
            margin: c.clearance - c.clearance / 8,
        };
    }
    Anchor {
        b,
        reach: c.reach,
        margin: NEVER,
    }
}

// The class beside r for the halfspace that q was prepared from; partial where it is active.
pub fn settled_class(q: PreparedHalfspace, r: Anchor) -> Class
    requires sound_halfspace { SoundHalfspace q }
    requires anchor { IsAnchor r }
    ensures { result ≡ settled_by q r }
{
    let f = q.f;
    let b = r.b;
    let c = vector_products::dot(f, b);
    if r.margin <= q.low * r.reach - c {
        return classify_halfspace::class_apart(q.d);
    }
    if r.margin <= c - q.high * r.reach {
        return classify_halfspace::class_within(q.d);
    }
    Class::Partial
}

// |a − b| by components
fn steps(a: Vec3, b: Vec3) -> u64
    requires { Small a × Small b }
    ensures value { result ≡ nat_abs (a.x -ℤ b.x) + nat_abs (a.y -ℤ b.y) + nat_abs (a.z -ℤ b.z) }
    ensures upper_bound { result ≤ 3 * 2 ^ 21 }
{
    a.x.abs_diff(b.x) + a.y.abs_diff(b.y) + a.z.abs_diff(b.z)
}

// Whether the middle of t is ahead of its rays and close to r: what is beyond the margin of r is beyond the clearance of m, by K for each step and 2K
// for each of E.
pub fn is_close(r: Anchor, t: &Trixel, m: BoundingCap) -> bool
    requires anchor { IsAnchor r }
    requires bounding_cap { IsBoundingCap t.now m }
    ensures { result ≡ close_to r m }
{
    let Some(c) = m.ahead else {
        return false;
    };
    let n = steps(m.b, r.b) + 2 * c.reach.abs_diff(r.reach);
    c.clearance + (K * n) as i64 <= r.margin
}
