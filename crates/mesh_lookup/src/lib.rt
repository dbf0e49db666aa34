// The lookup in code: the root by the signs, the trixel of depth 3 by the table, and from there by a jump; where a digit is not sure, step by step from
// corners. The rule stands in mesh/specs/Lookup, what the steps give in specs/LookupSteps.
#![tactic(auto)]

ghost use Rattle.std.specs.Prelude.{◌≡◌, cond, ◌-◌, ◌^◌, ◌≤◌, ◌<◌, pos};
ghost use Rattle.std.specs.Int.Signed.{le_z};
ghost use Rattle.answer.specs.Calls.{answer_of};
ghost use Rattle.vector.specs.Vectors as vectors;
ghost use Rattle.vector.proofs.Sizes.{Small};
ghost use Rattle.mesh.specs.Lookup as rule;
ghost use Rattle.mesh.specs.Lookup.{not_negative, north_root, south_root, root_number};
ghost use Rattle.mesh_table.specs.Table.{vector_at};
ghost use Rattle.mesh_trixels.specs.Corners.{bare, SmallCorners};
ghost use Rattle.mesh_jump.specs.Jumps.{along};
ghost use Rattle.mesh_lookup.specs.LookupSteps.{digit_by, ChildStep, Descent, turned_corners, TableStart};

use answer::Refusal;
use mesh::Corners;
use mesh_jump::SureDigits;
use mesh_trixels::FIRST_ROOT;
use vector::Vec3;

// A digit, and the corners of that child.
#[derive(Clone, Copy)]
pub struct Child {
    pub digit: u64,
    pub corners: Corners,
}

// An identifier, and the corners of its trixel.
#[derive(Clone, Copy)]
pub struct LocatedTrixel {
    pub id: u64,
    pub corners: Corners,
}

// A trixel of depth 3: its identifier, the corners of its entry in S0, and the pointing turned back into S0.
#[derive(Clone, Copy)]
pub struct TableTrixel {
    pub id: u64,
    pub entry: Corners,
    pub pointing: Vec3,
}

// Whether p is on the side of the cut by a and b: Scale(a × b)·p ≥ 0.
fn exactly_on_side(a: Vec3, b: Vec3, p: Vec3) -> bool
    requires small { Small a × Small b }
    requires small_2 { Small p }
    ensures { result ≡ not_negative (vectors.dot (vectors.scale (vectors.cross a b)) p) }
{
    0 <= vector_products::dot(mesh_trixels::normal(a, b), p)
}

// The same, by (a × b)·p where its size is beyond three times the largest component of a × b: it has the same sign there.
fn on_side(a: Vec3, b: Vec3, p: Vec3) -> bool
    requires small { Small a × Small b }
    requires small_2 { Small p }
    ensures { result ≡ not_negative (vectors.dot (vectors.scale (vectors.cross a b)) p) }
{
    let c = vector_products::cross(a, b);
    let s = vector_products::dot(p, c);
    if 3 * vector_units::largest(c) < s.unsigned_abs() {
        return 0 < s;
    }
    exactly_on_side(a, b, p)
}

// The child that p goes to, by the cuts; the middle of the edge v1 v2 is found only where it is needed.
// Kept: three tests one after the other, as each needs midpoints that those before it may make needless.
fn step(p: Vec3, c: Corners) -> Child
    requires small { Small p }
    requires small_corners { SmallCorners c }
    ensures { ChildStep p c result }
{
    let w1 = mesh_trixels::midpoint(c.v0, c.v2);
    let w2 = mesh_trixels::midpoint(c.v0, c.v1);
    if on_side(w2, w1, p) {
        return Child {
            digit: 0,
            corners: mesh_trixels::triple(c.v0, w2, w1),
        };
    }
    let w0 = mesh_trixels::midpoint(c.v1, c.v2);
    if on_side(w0, w2, p) {
        return Child {
            digit: 1,
            corners: mesh_trixels::triple(c.v1, w0, w2),
        };
    }
    if on_side(w1, w0, p) {
        return Child {
            digit: 2,
            corners: mesh_trixels::triple(c.v2, w1, w0),
        };
    }
    Child {
        digit: 3,
        corners: mesh_trixels::triple(w0, w1, w2),
    }
}

// The trixel n levels down from `start`.
fn descend(p: Vec3, start: LocatedTrixel, n: u32) -> LocatedTrixel
    requires small { Small p }
    requires small_corners { SmallCorners start.corners }
    requires id_bound { (start.id < 2 ^ 40) × (n ≤ 11) }
    ensures { Descent p start.corners start.id n result }
{
    let mut at = start;
    for _level in 0..n {
        let s = step(p, at.corners);
        at = LocatedTrixel {
            id: 4 * at.id + s.digit,
            corners: s.corners,
        };
    }
    at
}

// The root by the signs: S0 S1 S2 S3 N0 N1 N2 N3 are 0 to 7.
// Kept: a match over three signs, whose eight results are the rule's table of roots.
fn root_by(x: bool, y: bool, z: bool) -> u64
    ensures { (result ≡ cond z (north_root x y) (south_root x y)) × (result < 8) }
{
    match (z, y, x) {
        (false, true, true) => 0,
        (false, true, false) => 1,
        (false, false, false) => 2,
        (false, false, true) => 3,
        (true, false, true) => 4,
        (true, false, false) => 5,
        (true, true, false) => 6,
        (true, true, true) => 7,
    }
}

fn root_number(p: Vec3) -> u64
    requires { Small p }
    ensures { (result ≡ root_number p) × (result < 8) }
{
    root_by(0 <= p.x, 0 <= p.y, 0 <= p.z)
}

// Whether n, the normal of a cut turned round, leaves p on the side of the cut.
fn passes(p: Vec3, n: Vec3) -> bool
    requires small { Small p }
    requires small_2 { Small n }
    ensures { result ≡ le_z (vectors.dot n p) (pos 0) }
{
    vector_products::dot(p, n) <= 0
}

// The child that p goes to, by the normals of the three cuts turned round.
// Kept: the rule's three tests; the place in an array of the first normal that passes, `[a, b, c].iter().position(..)`, would be an Option, with 3 for None and
// a closure that asks that p and the normal are small.
fn digit_by(p: Vec3, a: Vec3, b: Vec3, c: Vec3) -> u64
    requires small { Small p }
    requires small_2 { Small a × Small b × Small c }
    ensures value { result ≡ digit_by p a b c }
    ensures upper_bound { result < 4 }
{
    if passes(p, a) {
        return 0;
    }
    if passes(p, b) {
        return 1;
    }
    if passes(p, c) {
        return 2;
    }
    3
}

// The same, by three vectors of the table.
fn table_digit(p: Vec3, a: usize, b: usize, c: usize) -> u64
    requires small { Small p }
    requires a_bound { (a < 96) × (b < 96) × (c < 96) }
    ensures value { result ≡ digit_by p (vector_at a) (vector_at b) (vector_at c) }
    ensures upper_bound { result < 4 }
{
    digit_by(
        p,
        mesh_table::vector_at(&mesh_table::TABLE, a),
        mesh_table::vector_at(&mesh_table::TABLE, b),
        mesh_table::vector_at(&mesh_table::TABLE, c),
    )
}

// Where the cuts of S0 stand in the table, as normals of two children of its middle child.
const CUT_0: usize = 83;

const CUT_1: usize = 76;

const CUT_2: usize = 77;

// The trixel of depth 3 that p goes to, from the table of S0, with p turned back into S0. The cuts of a trixel of depth 2 stand
// in it as the normals of its middle child. Below each child of S0 the table has 24 vectors.
fn from_table(p: Vec3, root: u64) -> TableTrixel
    requires small { Small p }
    requires root_bound { root < 8 }
    ensures { TableStart p root result }
{
    let q = mesh_table::turned_back(mesh_table::rotation(root), p);
    let d = table_digit(q, CUT_0, CUT_1, CUT_2);
    let below = 24 * d as usize;
    let e = table_digit(q, below + 21, below + 22, below + 23);
    TableTrixel {
        id: 16 * (FIRST_ROOT + root) + 4 * d + e,
        entry: mesh_table::corners_at(&mesh_table::TABLE, below + 6 * e as usize),
        pointing: q,
    }
}

// The identifier n levels below an entry of S0's, turned to a root, behind the first digits of id, which are sure: the corners are found along them, and
// the others level by level.
fn rest_of(p: Vec3, c: Corners, sure: SureDigits, n: u32) -> u64
    requires small { Small p }
    requires small_corners { SmallCorners c }
    requires id_bound { (sure.id < 2 ^ 40) × (sure.count ≤ n) × (n ≤ 9) }
    ensures { result ≡ rule.descend p (n - sure.count) (along sure.count sure.id (bare c)) sure.id }
{
    let start = LocatedTrixel {
        id: sure.id,
        corners: mesh_jump::corners_along(c, sure.id, sure.count),
    };
    descend(p, start, n - sure.count).id
}

// The identifier of p n levels below the trixel t of a root: the sure digits by a jump in S0, those that are left from the entry turned to the root.
fn identifier_below(p: Vec3, root: u64, t: TableTrixel, n: u32) -> u64
    requires small { Small p }
    requires root_bound { root < 8 }
    requires table_start { TableStart p root t }
    requires n_bound { n ≤ 9 }
    ensures { result ≡ rule.descend p n (bare (turned_corners root t.entry)) t.id }
{
    let sure = mesh_jump::jump(t.pointing, t.entry, t.id, n);
    if sure.count == n {
        return sure.id;
    }
    rest_of(
        p,
        mesh_table::turned_corners(mesh_table::rotation(root), t.entry),
        sure,
        n,
    )
}

// The identifier of p at a depth.
fn identifier(p: Vec3, depth: u32) -> u64
    requires small { Small p }
    requires le_depth { (1 ≤ depth) × (depth ≤ 12) }
    ensures { result ≡ rule.identifier p depth }
{
    let root = root_number(p);
    match depth {
        1 => FIRST_ROOT + root,
        2 => {
            let start = LocatedTrixel {
                id: FIRST_ROOT + root,
                corners: mesh_trixels::root_corners(root),
            };
            descend(p, start, 1).id
        }
        _ => {
            let start = from_table(p, root);
            if depth == 3 {
                start.id
            } else {
                identifier_below(p, root, start, depth - 3)
            }
        }
    }
}

// The identifier of the trixel that a pointing lies in, or the refusal 5 or 8.
pub fn lookup(p: Vec3, depth: u32) -> Result<u64, Refusal>
    ensures { answer_of result ≡ rule.lookup p depth }
{
    if !limits::is_depth(depth) {
        return Err(Refusal::Depth);
    }
    if !vector_products::is_vector(p) {
        return Err(Refusal::Vector);
    }
    Ok(identifier(p, depth))
}
