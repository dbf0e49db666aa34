// Trixels in code: roots, midpoints, cuts and children, with their normals and by corners alone; the corners of an identifier. The rules stand in
// mesh/specs/Trixels and Identifiers, corners alone in specs/Corners.
#![tactic(auto)]

ghost use Rattle.std.specs.Prelude.{◌≡◌, ◌*◌, ◌^◌, ◌≤◌, ◌<◌};
ghost use Rattle.answer.specs.Calls.{answer_of};
ghost use Rattle.vector.proofs.Sizes.{Small};
ghost use Rattle.vector.specs.Vectors.{unit, plus};
ghost use Rattle.mesh.specs.Trixels as rule;
ghost use Rattle.mesh.specs.Identifiers as identifiers;
ghost use Rattle.mesh_trixels.specs.Corners.{triple_of, bare, SmallCorners, SmallTrixel, SmallCut};
ghost use Rattle.vector.specs.Vectors as vectors;

use answer::Refusal;
use limits::{K, MINUS_K};
use mesh::{Corners, Cut, Trixel};
use vector::Vec3;

// Kept: the rule makes trixels, cuts and corners of any vectors (`child`, `corners_of`), and `lookup` takes any, so that they are small is a clause, no invariant.

// Three corners.
pub fn triple(a: Vec3, b: Vec3, c: Vec3) -> Corners
    ensures { result ≡ triple_of a b c }
{
    Corners {
        v0: a,
        v1: b,
        v2: c,
    }
}

// The middle of an edge: Unit(a + b).
pub fn midpoint(a: Vec3, b: Vec3) -> Vec3
    requires small { Small a }
    requires small_2 { Small b }
    ensures { (result ≡ unit (plus a b)) × Small result }
{
    vector_units::unit_two(vector_products::sum(a, b))
}

// The corners of a root: S0 S1 S2 S3 N0 N1 N2 N3 are 0 to 7.
pub fn root_corners(k: u64) -> Corners
    requires { k < 8 }
    ensures { (result ≡ identifiers.corners_of (rule.root_trixel k)) × SmallCorners result }
{
    let x = Vec3 { x: K, y: 0, z: 0 };
    let y = Vec3 { x: 0, y: K, z: 0 };
    let z = Vec3 { x: 0, y: 0, z: K };
    let left = Vec3 {
        x: MINUS_K,
        y: 0,
        z: 0,
    };
    let back = Vec3 {
        x: 0,
        y: MINUS_K,
        z: 0,
    };
    let down = Vec3 {
        x: 0,
        y: 0,
        z: MINUS_K,
    };
    match k {
        0 => triple(x, down, y),
        1 => triple(y, down, left),
        2 => triple(left, down, back),
        3 => triple(back, down, x),
        4 => triple(x, z, back),
        5 => triple(back, z, left),
        6 => triple(left, z, y),
        _ => triple(y, z, x),
    }
}

// The corners of the child number k, by the table of children; 3 and above is the one in the middle. At a corner only two midpoints are found.
#[inline]
pub fn child_corners(c: Corners, k: u64) -> Corners
    requires { SmallCorners c }
    ensures { (result ≡ identifiers.corners_of (rule.child k (bare c))) × SmallCorners result }
{
    match k {
        0 => triple(c.v0, midpoint(c.v0, c.v1), midpoint(c.v0, c.v2)),
        1 => triple(c.v1, midpoint(c.v1, c.v2), midpoint(c.v0, c.v1)),
        2 => triple(c.v2, midpoint(c.v0, c.v2), midpoint(c.v1, c.v2)),
        _ => triple(
            midpoint(c.v1, c.v2),
            midpoint(c.v0, c.v2),
            midpoint(c.v0, c.v1),
        ),
    }
}

// The identifier of S0: the roots are 8 to 15.
pub const FIRST_ROOT: u64 = 8;

// The corners of the trixel with the identifier id, n levels below its root.
fn corners_below(id: u64, n: u32) -> Corners
    requires n_bound { 8 * 4 ^ n ≤ id }
    requires id_bound { id < 16 * 4 ^ n }
    ensures { (result ≡ identifiers.corners_of (identifiers.trixel n id)) × SmallCorners result }
{
    if n == 0 {
        return root_corners(id - FIRST_ROOT);
    }
    child_corners(corners_below(id / 4, n - 1), id % 4)
}

// The corners of a trixel to depth 12, or the refusal 11.
pub fn corners_of(id: u64) -> Result<Corners, Refusal>
    ensures { answer_of result ≡ identifiers.corners id }
{
    let depth = mesh_names::depth_of(id);
    if !limits::is_depth(depth) {
        return Err(Refusal::Name);
    }
    Ok(corners_below(id, depth - 1))
}

// A root: S0 S1 S2 S3 N0 N1 N2 N3 are 0 to 7. Its normals are its corners.
pub fn root(k: u64) -> Trixel
    requires { k < 8 }
    ensures { (result ≡ rule.root_trixel k) × SmallTrixel result }
{
    let c = root_corners(k);
    Trixel {
        v0: c.v0,
        v1: c.v1,
        v2: c.v2,
        p0: c.v0,
        p1: c.v1,
        p2: c.v2,
    }
}

// The normal of a cut: Scale(a × b).
pub fn normal(a: Vec3, b: Vec3) -> Vec3
    requires small { Small a }
    requires small_2 { Small b }
    ensures { (result ≡ vectors.scale (vectors.cross a b)) × Small result }
{
    vector_units::scale(vector_products::cross(a, b))
}

// The cutting of a trixel: midpoints of its edges, normals of the cuts.
pub fn cut(t: Trixel) -> Cut
    requires { SmallTrixel t }
    ensures { (result ≡ rule.cut t) × SmallCut result }
{
    let w0 = midpoint(t.v1, t.v2);
    let w1 = midpoint(t.v0, t.v2);
    let w2 = midpoint(t.v0, t.v1);
    Cut {
        w0,
        w1,
        w2,
        c0: normal(w2, w1),
        c1: normal(w0, w2),
        c2: normal(w1, w0),
    }
}

// Kept: a function for each corner, as the rule's table of children has a row for each: one for all three would first turn the six vectors of the trixel and
// the six of the cut, as many fields as these three have.

// Child 0, at the corner v0.
pub fn child0(t: Trixel, c: Cut) -> Trixel
    requires small_trixel { SmallTrixel t }
    requires small_cut { SmallCut c }
    ensures { (result ≡ rule.child0 t c) × SmallTrixel result }
{
    Trixel {
        v0: t.v0,
        v1: c.w2,
        v2: c.w1,
        p0: c.c0,
        p1: t.p1,
        p2: t.p2,
    }
}

// Child 1, at the corner v1.
pub fn child1(t: Trixel, c: Cut) -> Trixel
    requires small_trixel { SmallTrixel t }
    requires small_cut { SmallCut c }
    ensures { (result ≡ rule.child1 t c) × SmallTrixel result }
{
    Trixel {
        v0: t.v1,
        v1: c.w0,
        v2: c.w2,
        p0: c.c1,
        p1: t.p2,
        p2: t.p0,
    }
}

// Child 2, at the corner v2.
pub fn child2(t: Trixel, c: Cut) -> Trixel
    requires small_trixel { SmallTrixel t }
    requires small_cut { SmallCut c }
    ensures { (result ≡ rule.child2 t c) × SmallTrixel result }
{
    Trixel {
        v0: t.v2,
        v1: c.w1,
        v2: c.w0,
        p0: c.c2,
        p1: t.p0,
        p2: t.p1,
    }
}

// Child 3, in the middle.
pub fn child3(t: Trixel, c: Cut) -> Trixel
    requires { SmallCut c }
    ensures { (result ≡ rule.child3 t c) × SmallTrixel result }
{
    Trixel {
        v0: c.w0,
        v1: c.w1,
        v2: c.w2,
        p0: vector_products::negated(c.c0),
        p1: vector_products::negated(c.c1),
        p2: vector_products::negated(c.c2),
    }
}
