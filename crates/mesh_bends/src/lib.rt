// The bends of a trixel's edges in code. What they are stands in specs/Bends; how far they are from 8 (2 K − n) for each trixel below S0 from depth 3 to
// depth 7, in proofs/BendFacts.
#![tactic(auto)]

ghost use Rattle.std.specs.Prelude.{◌≡◌, cond, ◌^◌, ◌<◌, pos, ◌≤ℤ◌};
ghost use Rattle.vector.specs.Numbers.{quot};
ghost use Rattle.algebra.proofs.Sizes.{Upto};
ghost use Rattle.vector.proofs.Sizes.{Small};
ghost use Rattle.mesh_trixels.specs.Corners.{SmallCorners};
ghost use Rattle.mesh_bends.specs.Bends.{SmallBends, bend_by, edge_bend, bends_of, first_cut, first_half, later_cut, later_half, turned_bends, first_at_corner, first_in_middle, later_at_corner, later_in_middle, bends_below};

use limits::K;
use mesh::Corners;
use vector::Vec3;

// A bend for each edge, by the number of the corner that is opposite to it.
// Kept: `SmallBends` is a clause, as the rules of specs/Bends make bends of any three numbers.
#[derive(Clone, Copy)]
pub struct Bends {
    pub a0: i64,
    pub a1: i64,
    pub a2: i64,
}

const K_SQUARE: i64 = K * K;

// What a bend is a part of.
pub const BEND_UNIT: i64 = 16777216;

// What products of bends are divided by.
const EDGE_UNIT: i64 = K_SQUARE / BEND_UNIT;

const CUBE_UNIT: i64 = 128 * BEND_UNIT;

const CUT_UNIT: i64 = 4 * BEND_UNIT;

// A fourth of CUT_UNIT, less a little: the first cut of an edge has nearly a fourth of its bend.
const CUT_PART: i64 = 16537216;

// The bend of an edge by s, the versine of its angle as a part of BEND_UNIT.
fn bend_by(s: i64) -> i64
    requires { Upto (2 ^ 26) s }
    ensures { result ≡ bend_by s }
{
    let s2 = s * s / BEND_UNIT;
    s / 4 + s2 / 32 + s2 * s / CUBE_UNIT
}

// The bend of the edge from b to c.
fn edge(b: Vec3, c: Vec3) -> i64
    requires small { Small b }
    requires small_2 { Small c }
    ensures { result ≡ edge_bend b c }
{
    bend_by((K_SQUARE - vector_products::dot(b, c)) / EDGE_UNIT)
}

// The bends of the trixel with the corners c.
pub fn bends_of(c: Corners) -> Bends
    requires { SmallCorners c }
    ensures { result ≡ bends_of c }
{
    Bends {
        a0: edge(c.v1, c.v2),
        a1: edge(c.v2, c.v0),
        a2: edge(c.v0, c.v1),
    }
}

// a / n, where a is not below 0.
fn part(a: i64, n: u64) -> i64
    requires pos_bound { (pos 0 ≤ℤ a) × Upto (2 ^ 20) a }
    requires n_nonzero { 0 < n }
    ensures { (result ≡ quot a (pos n)) × Upto (2 ^ 20) result }
{
    (a as u64 / n) as i64
}

// The bend of the edge that a cut makes, beside an edge with the bend a, by the sum of the three bends; `first`, at the first cut below the table.
fn cut(a: i64, sum: i64, first: bool) -> i64
    requires pos_bound { (pos 0 ≤ℤ a) × Upto (2 ^ 20) a }
    requires upto { Upto (2 ^ 22) sum }
    ensures { result ≡ cond first (first_cut a sum) (later_cut a) }
{
    if first {
        a * (CUT_PART + 266 * sum / 256 - 272 * a / 256) / CUT_UNIT
    } else {
        part(a, 4) + part(a, 256)
    }
}

// The bend of half an edge, after that cut.
fn half(a: i64, first: bool) -> i64
    requires { (pos 0 ≤ℤ a) × Upto (2 ^ 20) a }
    ensures { result ≡ cond first (first_half a) (later_half a) }
{
    if first {
        part(a, 4) + part(a, 1024)
    } else {
        part(a, 4)
    }
}

// The bends from corner number k on; 3 and above changes nothing.
fn turned(a: Bends, k: u64) -> Bends
    requires { SmallBends a }
    ensures { (result ≡ turned_bends k a) × SmallBends result }
{
    match k {
        1 => Bends {
            a0: a.a1,
            a1: a.a2,
            a2: a.a0,
        },
        2 => Bends {
            a0: a.a2,
            a1: a.a0,
            a2: a.a1,
        },
        _ => a,
    }
}

// After a cut, the bends of the child at the first corner.
fn at_corner(a: Bends, first: bool) -> Bends
    requires { SmallBends a }
    ensures { result ≡ cond first (first_at_corner a) (later_at_corner a) }
{
    Bends {
        a0: cut(a.a0, a.a0 + a.a1 + a.a2, first),
        a1: half(a.a1, first),
        a2: half(a.a2, first),
    }
}

// Those of the child in the middle.
fn in_middle(a: Bends, first: bool) -> Bends
    requires { SmallBends a }
    ensures { result ≡ cond first (first_in_middle a) (later_in_middle a) }
{
    let sum = a.a0 + a.a1 + a.a2;
    Bends {
        a0: cut(a.a0, sum, first),
        a1: cut(a.a1, sum, first),
        a2: cut(a.a2, sum, first),
    }
}

// The bends of child number k; 3 and above is the one in the middle. `first`, from depth 3 to depth 4.
pub fn bends_below(a: Bends, k: u64, first: bool) -> Bends
    requires { SmallBends a }
    ensures { result ≡ bends_below first k a }
{
    let t = turned(a, k);
    if k < 3 {
        at_corner(t, first)
    } else {
        in_middle(t, first)
    }
}
