// The constant table of depth 3 for S0: corners and normals of the trixels 128 to 143, and the rotations that give those of the other seven roots.
// specs/Table defines the numbers, mesh/specs/Rotations the rotations.
#![tactic(auto)]

ghost use Rattle.std.specs.Prelude.{◌≡◌, cond, ◌+◌, ◌<◌, length};
ghost use Rattle.algebra.proofs.Sizes.{Upto};
ghost use Rattle.vector.specs.Numbers.{Kℕ};
ghost use Rattle.vector.specs.Vectors.{vec};
ghost use Rattle.vector.proofs.Sizes.{Small};
ghost use Rattle.mesh.specs.Rotations as rule;
ghost use Rattle.mesh_trixels.specs.Corners.{triple_of, SmallCorners};
ghost use Rattle.mesh_table.specs.Table.{Row, vector_in};

use mesh::{Corners, Rotation};
use vector::Vec3;

// v0 v1 v2, then p0 p1 p2 of each trixel, in identifier order. Printed by tools/table.py.
#[rattlefmt::skip]
pub static TABLE: [[i32; 3]; 96] = [
    [1048576, 0, 0], [968758, 0, -401272], [968758, 401272, 0],
    [434333, -1048576, 1048576], [0, 0, -1048576], [0, 1048576, 0],
    [741455, 0, -741455], [856158, 428079, -428079], [968758, 0, -401272],
    [-434333, -179908, -1048576], [0, 1048576, 0], [1048576, -1048576, 1048576],
    [741455, 741455, 0], [968758, 401272, 0], [856158, 428079, -428079],
    [-434333, 1048576, 179908], [1048576, -1048576, 1048576], [0, 0, -1048576],
    [856158, 428079, -428079], [968758, 401272, 0], [968758, 0, -401272],
    [-434333, 1048576, -1048576], [434333, 179908, 1048576], [434333, -1048576, -179908],
    [0, 0, -1048576], [0, 401272, -968758], [401272, 0, -968758],
    [-1048576, -1048576, -434333], [0, 1048576, 0], [1048576, 0, 0],
    [0, 741455, -741455], [428079, 428079, -856158], [0, 401272, -968758],
    [-179908, 1048576, 434333], [1048576, 0, 0], [-1048576, -1048576, -1048576],
    [741455, 0, -741455], [401272, 0, -968758], [428079, 428079, -856158],
    [1048576, -179908, 434333], [-1048576, -1048576, -1048576], [0, 1048576, 0],
    [428079, 428079, -856158], [401272, 0, -968758], [0, 401272, -968758],
    [1048576, 1048576, 434333], [179908, -1048576, -434333], [-1048576, 179908, -434333],
    [0, 1048576, 0], [401272, 968758, 0], [0, 968758, -401272],
    [-1048576, 434333, 1048576], [1048576, 0, 0], [0, 0, -1048576],
    [741455, 741455, 0], [428079, 856158, -428079], [401272, 968758, 0],
    [1048576, -434333, 179908], [0, 0, -1048576], [-1048576, 1048576, 1048576],
    [0, 741455, -741455], [0, 968758, -401272], [428079, 856158, -428079],
    [-179908, -434333, -1048576], [-1048576, 1048576, 1048576], [1048576, 0, 0],
    [428079, 856158, -428079], [0, 968758, -401272], [401272, 968758, 0],
    [1048576, -434333, -1048576], [-1048576, 434333, -179908], [179908, 434333, 1048576],
    [0, 741455, -741455], [428079, 856158, -428079], [428079, 428079, -856158],
    [-1048576, 349525, -349525], [1048576, 1048576, 1048576], [1048576, -1048576, -1048576],
    [741455, 741455, 0], [856158, 428079, -428079], [428079, 856158, -428079],
    [349525, 349525, 1048576], [1048576, -1048576, -1048576], [-1048576, 1048576, -1048576],
    [741455, 0, -741455], [428079, 428079, -856158], [856158, 428079, -428079],
    [349525, -1048576, -349525], [-1048576, 1048576, -1048576], [1048576, 1048576, 1048576],
    [856158, 428079, -428079], [428079, 428079, -856158], [428079, 856158, -428079],
    [1048576, -349525, 349525], [-349525, -349525, -1048576], [-349525, 1048576, 349525],
];

// Vector k of a row: corner or normal number k % 6 of its trixel k / 6.
pub fn vector_at(row: &[[i32; 3]], k: usize) -> Vec3
    requires row { Row row.now }
    requires k_bound { k < length row.now }
    ensures { (result ≡ vector_in row.now k) × Small result }
{
    Vec3 {
        x: row[k][0] as i64,
        y: row[k][1] as i64,
        z: row[k][2] as i64,
    }
}

// The rotation that takes S0 to a root.
pub fn rotation(root: u64) -> Rotation
    requires { root < 8 }
    ensures { result ≡ rule.rotation root }
{
    Rotation {
        swaps: root % 2 == 1,
        x: 2 <= (root + 1) % 4,
        y: 4 <= (root + 2) % 8,
        z: 4 <= root,
    }
}

fn negated_if(b: bool, n: i64) -> i64
    requires { Upto Kℕ n }
    ensures { (result ≡ rule.negated_if b n) × Upto Kℕ result }
{
    if b { -n } else { n }
}

// A vector with each component negated where the rotation says so.
fn signed(k: Rotation, a: Vec3) -> Vec3
    requires { Small a }
    ensures { (result ≡ vec (rule.negated_if k.x a.x) (rule.negated_if k.y a.y) (rule.negated_if k.z a.z)) × Small result }
{
    Vec3 {
        x: negated_if(k.x, a.x),
        y: negated_if(k.y, a.y),
        z: negated_if(k.z, a.z),
    }
}

// A vector with x and y in each other's place where b says so.
fn swapped_if(b: bool, a: Vec3) -> Vec3
    requires { Small a }
    ensures { (result ≡ vec (cond b a.y a.x) (cond b a.x a.y) a.z) × Small result }
{
    if b {
        Vec3 {
            x: a.y,
            y: a.x,
            z: a.z,
        }
    } else {
        a
    }
}

// The vector that a rotation turns to p.
pub fn turned_back(k: Rotation, p: Vec3) -> Vec3
    requires { Small p }
    ensures { (rule.turned_by k result ≡ p) × Small result }
{
    swapped_if(k.swaps, signed(k, p))
}

// A vector of the table, turned.
fn turned(k: Rotation, a: Vec3) -> Vec3
    requires { Small a }
    ensures { (result ≡ rule.turned_by k a) × Small result }
{
    signed(k, swapped_if(k.swaps, a))
}

// The corners v0 v1 v2 of the entry that begins at vector i of a row.
pub fn corners_at(row: &[[i32; 3]], i: usize) -> Corners
    requires row { Row row.now }
    requires i_bound { i + 2 < length row.now }
    ensures value { result ≡ triple_of (vector_in row.now i) (vector_in row.now (i + 1)) (vector_in row.now (i + 2)) }
    ensures small_corners { SmallCorners result }
{
    mesh_trixels::triple(
        vector_at(row, i),
        vector_at(row, i + 1),
        vector_at(row, i + 2),
    )
}

// The corners of an entry of S0's, turned to a root.
pub fn turned_corners(k: Rotation, c: Corners) -> Corners
    requires { SmallCorners c }
    ensures value { result ≡ triple_of (rule.turned_by k c.v0) (rule.turned_by k c.v1) (rule.turned_by k c.v2) }
    ensures small_corners { SmallCorners result }
{
    mesh_trixels::triple(turned(k, c.v0), turned(k, c.v1), turned(k, c.v2))
}
