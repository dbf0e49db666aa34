// What the exported calls are made of: a pointing from three numbers; for C, answers as numbers and values in lent lists. No function here is exported, so each
// may ask something of its callers. The rules stand in specs/Values.
#![tactic(auto)]

ghost use Rattle.std.specs.Prelude.{◌≡◌, [], ◌∷◌, ◌++◌, ℕ, ◌+◌, ◌^◌, ◌≤◌, length, pos, neg_ℤ};
ghost use Rattle.algebra.proofs.Sizes.{Upto};
ghost use Rattle.answer.specs.Answer.{refused, gives, check, Owner};
ghost use Rattle.answer.specs.Calls.{number, answer_of};
ghost use Rattle.answer.specs.Lent.{put};
ghost use Rattle.vector.specs.Vectors.{vec, three};
ghost use Rattle.vector.proofs.Sizes.{Small};
ghost use Rattle.mesh_trixels.specs.Corners.{SmallCorners};
ghost use Rattle.index.specs.Exposures.{is_owner};
ghost use Rattle.htm_abi.specs.Values.{or_zero, number_for_c, status_of, corners_list, header_list};
ghost use Rattle.covering.specs.Cover.{counts_list, cover_counts};
ghost use Rattle.frames.specs.Answers.{frames_list, frame_counts};
ghost use Rattle.htm_abi.specs.ShortLists.{file_refusal_or_space};

use answer::Refusal;
use covering::Counts;
use frames::Frames;
use index::OWNERS;
use limits::HALFSPACES;
use mesh::Corners;
use region::Header;
use vector::Vec3;

pub mod trials;

// How many numbers three corners are.
pub const CORNERS_LENGTH: usize = 9;

// How many numbers a header is: count, depth and budget.
pub const HEADER_LENGTH: usize = 3;

// How many numbers give what a file says without its rows: a header, and the count of convexes.
pub const CONTENTS_LENGTH: usize = HEADER_LENGTH + 1;

// Three components, as a vector.
pub fn pointing(x: i32, y: i32, z: i32) -> Vec3
    ensures { result ≡ vec x y z }
{
    Vec3 {
        x: i64::from(x),
        y: i64::from(y),
        z: i64::from(z),
    }
}

// An identifier, or 0 for a refusal.
pub fn or_zero(answer: Result<u64, Refusal>) -> u64
    ensures { result ≡ or_zero (answer_of answer) }
{
    answer.unwrap_or(0)
}

// A refusal's number, below zero.
// Kept: of a number and no Refusal, as `number_for_c` is of the number in `refused`, and the edit c_holds_refusal_is_8 hands it one.
pub fn minus(n: u32) -> i64
    ensures { (result ≡ neg_ℤ (pos n)) × Upto (2 ^ 32) result }
{
    -i64::from(n)
}

// A length or an identifier to depth 12, or minus the number of the refusal.
pub fn number_or_minus(answer: Result<u64, Refusal>) -> i64
    requires { (n : ℕ) → answer_of answer ≡ gives n → n ≤ 2 ^ 32 }
    ensures { (result ≡ number_for_c (answer_of answer)) × Upto (2 ^ 32) result }
{
    match answer {
        Ok(n) => n as i64,
        Err(r) => minus(r.number()),
    }
}

// 0 where a call was done, or minus the number of the refusal.
pub fn status(answer: Result<(), Refusal>) -> i64
    ensures { (result ≡ status_of (answer_of answer)) × Upto (2 ^ 32) result }
{
    match answer {
        Ok(()) => 0,
        Err(refusal) => minus(refusal.number()),
    }
}

// Some items in a list, from element `at` on.
pub fn put<T: Copy>(list: &mut [T], at: usize, items: &[T])
    requires { at + length items.now ≤ length list.old }
    ensures { list.new ≡ put at items.now list.old }
{
    list[at..at + items.len()].copy_from_slice(items);
}

// A corner, from element `at` on.
fn put_corner(out: &mut [i32], at: usize, v: Vec3)
    requires at_in_bounds { at + 3 ≤ length out.old }
    requires small { Small v }
    ensures { out.new ≡ put at (three v) out.old }
{
    put(out, at, &[v.x as i32, v.y as i32, v.z as i32]);
}

// Three corners, at the beginning of a list.
pub fn put_corners(out: &mut [i32], c: Corners)
    requires in_bounds { 9 ≤ length out.old }
    requires small_corners { SmallCorners c }
    ensures { out.new ≡ put 0 (corners_list c) out.old }
{
    put_corner(out, 0, c.v0);
    put_corner(out, 3, c.v1);
    put_corner(out, 6, c.v2);
}

// The refusal where a lent list is too short: the file's own, or 10.
pub fn file_refusal_or_space(file: &[u8]) -> Refusal
    ensures { file_refusal_or_space file.now ≡ refused (number result) }
{
    let mut rows = [0i32; 5 * HALFSPACES];
    match region_reader::decode(file, &mut rows) {
        Ok(_) => Refusal::Space,
        Err(r) => r,
    }
}

// As above, with an owner: 18, the file's own refusal, or 10.
// Kept: the test itself, here and in trials.rt: with `check_owner(owner).err()` the file would be read by a closure, which is no plainer.
pub fn owner_refusal_or_space(owner: u32, file: &[u8]) -> Refusal
    ensures { check Owner (is_owner owner) (file_refusal_or_space file.now) ≡ refused (number result) }
{
    if OWNERS <= owner {
        return Refusal::Owner;
    }
    file_refusal_or_space(file)
}

// Count, depth and budget, at the beginning of a list.
// Kept: values as numbers in lists that C lends; so in all `put_` functions.
pub fn put_header(header: &mut [u64], h: Header)
    requires { 3 ≤ length header.old }
    ensures { header.new ≡ put 0 (header_list h) header.old }
{
    put(
        header,
        0,
        &[u64::from(h.count), u64::from(h.depth), u64::from(h.budget)],
    );
}

// As above, and then the count of convexes.
pub fn put_contents(header: &mut [u64], h: Header, convexes: u64)
    requires { 4 ≤ length header.old }
    ensures { header.new ≡ put 0 (header_list h ++ convexes ∷ []) header.old }
{
    put_header(header, h);
    put(header, HEADER_LENGTH, &[convexes]);
}

// The counts, at the beginning of a list.
pub fn put_counts(counts: &mut [u64], c: Counts)
    requires { cover_counts ≤ length counts.old }
    ensures { counts.new ≡ put 0 (counts_list c) counts.old }
{
    put(
        counts,
        0,
        &[c.outer, c.inner, c.seen, c.full, c.partial, c.swallowed],
    );
}

// The two counts, at the beginning of a list.
pub fn put_frames(counts: &mut [u64], r: Frames)
    requires { frame_counts ≤ length counts.old }
    ensures { counts.new ≡ put 0 (frames_list r) counts.old }
{
    put(counts, 0, &[r.delivered, r.tests]);
}
