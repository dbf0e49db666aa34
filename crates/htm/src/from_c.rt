// The calls for a host in C: each is a call of the crate, with a number for its answer, since C has no enum with values. None has a `requires`.
// A list is passed as a pointer and its number of elements: include/htm.h.
ghost use Rattle.std.specs.Prelude.{◌≡◌, length};
ghost use Rattle.vector.specs.Vectors.{vec};
ghost use Rattle.mount.specs.Reports.{single_report, double_report};
ghost use Rattle.mesh.specs.Lookup as mesh_lookup;
ghost use Rattle.mesh.specs.Names.{identifier_of};
ghost use Rattle.mesh.specs.Answers.{name_answer, name_after};
ghost use Rattle.region.specs.Writer.{write_grouped};
ghost use Rattle.region.specs.Converting.{to_grouped, to_plain};
ghost use Rattle.region.specs.Answers.{point_test, file_answer, file_after, write_answer, write_after};
ghost use Rattle.htm_abi.specs.Values.{or_zero, number_for_c, held_for_c, status_of};
ghost use Rattle.htm.specs.Answers.{lookup_report, locate_line, lookup_for_c};
ghost use Rattle.htm.specs.CalledFromC.{corners_for_c, corners_after_c, read_for_c, rows_after_c, header_after_c, contents_for_c, contents_after_c, cover_for_c, cover_after_c, counts_after_c};

use answer::Refusal;
use covering::COVER_COUNTS;
use htm_abi::{CONTENTS_LENGTH, CORNERS_LENGTH, HEADER_LENGTH};
use limits::HALFSPACES;
use mount::{Double, Report, Single};

// The lookup: the identifier, or 0 for a refusal.
#[unsafe(no_mangle)]
pub extern "C" fn lookup(x: i32, y: i32, z: i32, depth: u32) -> u64
    ensures { result ≡ lookup_for_c x y z depth }
{
    htm_abi::or_zero(crate::locate(x, y, z, depth))
}

// As above: the identifier, or minus the number of the refusal.
#[unsafe(no_mangle)]
pub extern "C" fn htm_lookup(x: i32, y: i32, z: i32, depth: u32) -> i64
    ensures { result ≡ number_for_c (mesh_lookup.lookup (vec x y z) depth) }
{
    htm_abi::number_or_minus(crate::locate(x, y, z, depth))
}

// The lookup of a mount's report in single precision: the identifier, or minus the number of the refusal.
#[unsafe(no_mangle)]
pub extern "C" fn htm_lookup_f32(x: f32, y: f32, z: f32, depth: u32) -> i64
    ensures { result ≡ number_for_c (lookup_report (single_report x y z) depth) }
{
    htm_abi::number_or_minus(crate::locate_report(Report::Single(Single { x, y, z }), depth))
}

// As above, in double precision.
#[unsafe(no_mangle)]
pub extern "C" fn htm_lookup_f64(x: f64, y: f64, z: f64, depth: u32) -> i64
    ensures { result ≡ number_for_c (lookup_report (double_report x y z) depth) }
{
    htm_abi::number_or_minus(crate::locate_report(Report::Double(Double { x, y, z }), depth))
}

// The lookup of a catalogue line: the identifier, or minus the number of the refusal.
#[unsafe(no_mangle)]
pub extern "C" fn htm_lookup_line(line: &[u8], depth: u32) -> i64
    ensures { result ≡ number_for_c (locate_line line.now depth) }
{
    htm_abi::number_or_minus(crate::locate_line(line, depth))
}

// The name of an identifier, at the beginning of `out`: its length, or minus the number of the refusal.
#[unsafe(no_mangle)]
pub extern "C" fn htm_name(id: u64, out: &mut [u8]) -> i64
    ensures value { result ≡ number_for_c (name_answer id out.old) }
    ensures out_after { out.new ≡ name_after id out.old }
{
    htm_abi::number_or_minus(crate::name(id, out))
}

// The identifier of a name, or 0 for a refusal. An identifier of depth 31 has bit 63, so the answer has no sign.
#[unsafe(no_mangle)]
pub extern "C" fn htm_identifier(name: &[u8]) -> u64
    ensures { result ≡ or_zero (identifier_of name.now) }
{
    htm_abi::or_zero(crate::identifier(name))
}

// The corners of the trixel of an identifier to depth 12, nine numbers at the beginning of `out`: 0, or minus the number of the refusal, 10 where
// `out` has fewer than nine elements.
// Kept: a match, so in all calls that fill a list: tried with `?`, and as a call from C gives no Result each was two functions, the second with the same
// clauses of its lists once more.
#[unsafe(no_mangle)]
pub extern "C" fn htm_corners(id: u64, out: &mut [i32]) -> i64
    ensures value { result ≡ status_of (corners_for_c id out.old) }
    ensures out_after { out.new ≡ corners_after_c id out.old }
{
    match crate::corners(id) {
        Ok(c) => {
            if out.len() < CORNERS_LENGTH {
                return htm_abi::minus(Refusal::Space.number());
            }
            htm_abi::put_corners(out, c);
            0
        }
        Err(r) => htm_abi::minus(r.number()),
    }
}

// The region file of some rows, at the beginning of `out`: its length, or minus the number of the refusal.
#[unsafe(no_mangle)]
pub extern "C" fn htm_write(depth: u32, budget: u32, rows: &[i32], out: &mut [u8]) -> i64
    ensures value { result ≡ number_for_c (write_answer depth budget rows.now out.old) }
    ensures out_after { out.new ≡ write_after depth budget rows.now out.old }
{
    htm_abi::number_or_minus(crate::write(depth, budget, rows, out))
}

// As above, for the grouped file.
#[unsafe(no_mangle)]
pub extern "C" fn htm_write_grouped(depth: u32, budget: u32, rows: &[i32], out: &mut [u8]) -> i64
    ensures value { result ≡ number_for_c (file_answer (write_grouped depth budget rows.now) out.old) }
    ensures out_after { out.new ≡ file_after (write_grouped depth budget rows.now) out.old }
{
    htm_abi::number_or_minus(crate::write_grouped(depth, budget, rows, out))
}

// The grouped form of a region file, at the beginning of `out`: its length, or minus the number of the refusal.
#[unsafe(no_mangle)]
pub extern "C" fn htm_to_grouped(file: &[u8], out: &mut [u8]) -> i64
    ensures value { result ≡ number_for_c (file_answer (to_grouped file.now) out.old) }
    ensures out_after { out.new ≡ file_after (to_grouped file.now) out.old }
{
    htm_abi::number_or_minus(crate::to_grouped(file, out))
}

// As above, for the plain form.
#[unsafe(no_mangle)]
pub extern "C" fn htm_to_plain(file: &[u8], out: &mut [u8]) -> i64
    ensures value { result ≡ number_for_c (file_answer (to_plain file.now) out.old) }
    ensures out_after { out.new ≡ file_after (to_plain file.now) out.old }
{
    htm_abi::number_or_minus(crate::to_plain(file, out))
}

// The point test: 1 where the region holds the pointing, 0 where it does not, or minus the number of the refusal.
// Kept: a match, as no other call answers yes or no: a function for it in htm_abi would have one caller, and be as long as this.
#[unsafe(no_mangle)]
pub extern "C" fn htm_holds(file: &[u8], x: i32, y: i32, z: i32) -> i64
    ensures { result ≡ held_for_c (point_test file.now (vec x y z)) }
{
    match crate::holds(file, x, y, z) {
        Ok(held) => i64::from(held),
        Err(refusal) => htm_abi::minus(refusal.number()),
    }
}

// The rows of a region file: 0, with count, depth and budget at the beginning of `header`, or minus the number of the refusal; 10 also where `header`
// has fewer than three elements.
#[unsafe(no_mangle)]
pub extern "C" fn htm_read(file: &[u8], rows: &mut [i32], header: &mut [u64]) -> i64
    ensures value { result ≡ status_of (read_for_c file.now rows.old header.old) }
    ensures rows_after { rows.new ≡ rows_after_c file.now rows.old header.old }
    ensures header_after { header.new ≡ header_after_c file.now rows.old header.old }
{
    if header.len() < HEADER_LENGTH {
        return htm_abi::minus(htm_abi::file_refusal_or_space(file).number());
    }
    match crate::read(file, rows) {
        Ok(h) => {
            htm_abi::put_header(header, h);
            0
        }
        Err(r) => htm_abi::minus(r.number()),
    }
}

// What a region file says without its rows: 0, with the count of halfspaces, depth, budget and the count of convexes at the beginning of `header`, or
// minus the number of the refusal, 10 where `header` has fewer than four elements.
#[unsafe(no_mangle)]
pub extern "C" fn htm_header(file: &[u8], header: &mut [u64]) -> i64
    ensures value { result ≡ status_of (contents_for_c file.now header.old) }
    ensures header_after { header.new ≡ contents_after_c file.now header.old }
{
    let mut rows = [0i32; 5 * HALFSPACES];
    match region_reader::decode(file, &mut rows) {
        Ok(h) => {
            if header.len() < CONTENTS_LENGTH {
                return htm_abi::minus(Refusal::Space.number());
            }
            let convexes = region_reader::convexes_in(&rows, h.count as usize);
            htm_abi::put_contents(header, h, convexes);
            0
        }
        Err(r) => htm_abi::minus(r.number()),
    }
}

// The cover: 0, with its counts at the beginning of `counts`, or minus the number of the refusal; 10 also where `counts` has too few elements.
#[unsafe(no_mangle)]
pub extern "C" fn htm_cover(file: &[u8], out: &mut [u64], counts: &mut [u64]) -> i64
    ensures value { result ≡ status_of (cover_for_c file.now out.old counts.old) }
    ensures out_after { out.new ≡ cover_after_c file.now out.old counts.old }
    ensures counts_after { counts.new ≡ counts_after_c file.now out.old counts.old }
{
    if counts.len() < COVER_COUNTS {
        return htm_abi::minus(htm_abi::file_refusal_or_space(file).number());
    }
    match crate::cover(file, out) {
        Ok(c) => {
            htm_abi::put_counts(counts, c);
            0
        }
        Err(r) => htm_abi::minus(r.number()),
    }
}
