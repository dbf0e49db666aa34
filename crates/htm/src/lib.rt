// The public face: every exported call; those for a host in C stand in from_c.rt, index_from_c.rt and trial_from_c.rt. Each answers by the rule that its
// contract names, for good and bad input alike, and none has a `requires`. A refusal says no more than which check failed (`Refusal` of answer), and then every
// lent element keeps its value.
#![tactic(auto)]

ghost use Rattle.std.specs.Prelude.{◌≡◌};
ghost use Rattle.answer.specs.Calls.{answer_of};
ghost use Rattle.vector.specs.Vectors.{vec};
ghost use Rattle.mesh.specs.Lookup as mesh_lookup;
ghost use Rattle.mesh.specs.Names.{identifier_of};
ghost use Rattle.mesh.specs.Identifiers as identifiers;
ghost use Rattle.mesh.specs.Answers.{name_answer, name_after};
ghost use Rattle.region.specs.Writer.{write_grouped};
ghost use Rattle.region.specs.Converting.{to_grouped, to_plain};
ghost use Rattle.region.specs.Answers.{read_answer, read_after, file_answer, file_after, write_answer, write_after, point_test};
ghost use Rattle.index.specs.Exposures.{key, exposure};
ghost use Rattle.index.specs.Answers.{begin_answer, begin_after, add_answer, add_after, remove_answer, remove_after, count_answer, entry_answer};
ghost use Rattle.index.specs.Answers.{entry_given};
ghost use Rattle.frames.specs.Answers.{FramesCall};
ghost use Rattle.trial.specs.Answers.{TrialCall, IsPart};
ghost use Rattle.htm.specs.Answers as answers;
ghost use Rattle.htm.specs.Answers.{lookup_report, locate_line, cover_answer, cover_after};

use answer::Refusal;
use covering::Counts;
use frames::Frames;
use index::Entry;
use limits::HALFSPACES;
use mesh::Corners;
use mount::Report;
use region::{Header, Style};
use trial::{Setting, Trial};
use vector::Vec3;

pub mod from_c;
pub mod index_from_c;
pub mod trial_from_c;

// The identifier of the trixel of a depth from 1 to 12 in which a pointing lies; refusals 5, 8.
pub fn locate(x: i32, y: i32, z: i32, depth: u32) -> Result<u64, Refusal>
    ensures { answer_of result ≡ mesh_lookup.lookup (vec x y z) depth }
{
    mesh_lookup::lookup(htm_abi::pointing(x, y, z), depth)
}

// As above, for a mount's report, three floats of single or double precision; refusals 5, 12, 8.
pub fn locate_report(report: Report, depth: u32) -> Result<u64, Refusal>
    ensures { answer_of result ≡ lookup_report report depth }
{
    located(mount::pointing(report), depth)
}

// As above, for a catalogue line, its line feed included; refusals 5, 13, 8.
pub fn locate_line(line: &[u8], depth: u32) -> Result<u64, Refusal>
    ensures { answer_of result ≡ locate_line line.now depth }
{
    located(catalogue_line::pointing_in(line), depth)
}

// The lookup of a pointing that comes in another form; refusals 5, then its own, then 8.
fn located(said: Result<Vec3, Refusal>, depth: u32) -> Result<u64, Refusal>
    ensures { answer_of result ≡ answers.located (answer_of said) depth }
{
    if !limits::is_depth(depth) {
        return Err(Refusal::Depth);
    }
    mesh_lookup::lookup(said?, depth)
}

// The name of an identifier, written at the beginning of `out`, and its length; refusals 11, then 10.
pub fn name(id: u64, out: &mut [u8]) -> Result<u64, Refusal>
    ensures result_value { answer_of result ≡ name_answer id out.old }
    ensures out_after { out.new ≡ name_after id out.old }
{
    mesh_names::name_of(id, out)
}

// The identifier of a name; refusal 11.
pub fn identifier(name: &[u8]) -> Result<u64, Refusal>
    ensures { answer_of result ≡ identifier_of name.now }
{
    mesh_names::id_of(name)
}

// The corners of the trixel of an identifier to depth 12; refusal 11.
pub fn corners(id: u64) -> Result<Corners, Refusal>
    ensures { answer_of result ≡ identifiers.corners id }
{
    mesh_trixels::corners_of(id)
}

// The rows of a region file, written at the beginning of `rows`, with their count and the file's depth and budget as written; or the refusal of the
// file's first failed check, 10 last.
pub fn read(file: &[u8], rows: &mut [i32]) -> Result<Header, Refusal>
    ensures result_value { answer_of result ≡ read_answer file.now rows.old }
    ensures rows_after { rows.new ≡ read_after file.now rows.old }
{
    region_reader::read(file, rows)
}

// The region file of some rows, written at the beginning of `out`, and its length; refusals 5, 6, then 4, 7, 8, 9 row by row, then 10.
pub fn write(depth: u32, budget: u32, rows: &[i32], out: &mut [u8]) -> Result<u64, Refusal>
    ensures result_value { answer_of result ≡ write_answer depth budget rows.now out.old }
    ensures out_after { out.new ≡ write_after depth budget rows.now out.old }
{
    region_writer::write(Style::Plain, depth, budget, rows, out)
}

// The grouped region file of some rows, written at the beginning of `out`, and its length; the refusals of `write`.
pub fn write_grouped(depth: u32, budget: u32, rows: &[i32], out: &mut [u8]) -> Result<u64, Refusal>
    ensures result_value { answer_of result ≡ file_answer (write_grouped depth budget rows.now) out.old }
    ensures out_after { out.new ≡ file_after (write_grouped depth budget rows.now) out.old }
{
    region_writer::write(Style::Grouped, depth, budget, rows, out)
}

// The grouped form of a region file, written at the beginning of `out`, and its length: a grouped file itself, a plain one written anew with its depth and
// budget as written; the file's refusals, then 10.
pub fn to_grouped(file: &[u8], out: &mut [u8]) -> Result<u64, Refusal>
    ensures result_value { answer_of result ≡ file_answer (to_grouped file.now) out.old }
    ensures out_after { out.new ≡ file_after (to_grouped file.now) out.old }
{
    region_convert::convert(Style::Grouped, file, out)
}

// As above, with the plain form.
pub fn to_plain(file: &[u8], out: &mut [u8]) -> Result<u64, Refusal>
    ensures result_value { answer_of result ≡ file_answer (to_plain file.now) out.old }
    ensures out_after { out.new ≡ file_after (to_plain file.now) out.old }
{
    region_convert::convert(Style::Plain, file, out)
}

// The point test: whether the region of a file holds a pointing; the file's refusals, then 8.
pub fn holds(file: &[u8], x: i32, y: i32, z: i32) -> Result<bool, Refusal>
    ensures { answer_of result ≡ point_test file.now (vec x y z) }
{
    region_points::point_test(file, htm_abi::pointing(x, y, z))
}

// The cover of a region file: the outer list from element 0 of `out`, the inner list from element 2 × budget, pairs low and high; both counts,
// seen, full, partial and swallowed. The file's refusals, then 10 where `out` has fewer than 4 × budget elements.
// Kept: the test of the room itself and not `frames_calls::check_room`, as the edit hollow_space_for_every_file is of it.
pub fn cover(file: &[u8], out: &mut [u64]) -> Result<Counts, Refusal>
    ensures result_value { answer_of result ≡ cover_answer file.now out.old }
    ensures out_after { out.new ≡ cover_after file.now out.old }
{
    let mut rows = [0i32; 5 * HALFSPACES];
    let h = region_reader::decode(file, &mut rows)?;
    let budget = limits::budget_of(h.budget);
    if out.len() < 4 * budget {
        return Err(Refusal::Space);
    }
    Ok(covering_calls::cover(h.depth, &rows, h.count as usize, budget, out))
}

// Makes a list an empty index of exposures; refusal 10 where it has fewer than index::INDEX_LENGTH elements, as in the four calls below.
pub fn index_begin(index: &mut [i64]) -> Result<(), Refusal>
    ensures result_value { answer_of result ≡ begin_answer index.old }
    ensures index_after { index.new ≡ begin_after index.old }
{
    index_calls::begin(index)
}

// Adds an exposure of an owner, 0 or 1, to an index, by its number and its pointing; refusals 18, 8, 10, 15, 16.
// Kept: index, owner, number and pointing one by one, as htm_add is handed them; so in the other calls of an index, and in those of a pointing.
pub fn add(
    index: &mut [i64],
    owner: u32,
    number: u32,
    x: i32,
    y: i32,
    z: i32,
) -> Result<(), Refusal>
    ensures result_value { answer_of result ≡ add_answer (exposure owner number x y z) index.old }
    ensures index_after { index.new ≡ add_after (exposure owner number x y z) index.old }
{
    index_calls::add(index, owner, number, htm_abi::pointing(x, y, z))
}

// Removes an exposure of an owner, by its number; refusals 18, 10, 17.
pub fn remove(index: &mut [i64], owner: u32, number: u32) -> Result<(), Refusal>
    ensures result_value { answer_of result ≡ remove_answer (key owner number) index.old }
    ensures index_after { index.new ≡ remove_after (key owner number) index.old }
{
    index_calls::remove(index, owner, number)
}

// How many entries an index has, of both owners; refusal 10.
pub fn index_count(index: &[i64]) -> Result<u64, Refusal>
    ensures { answer_of result ≡ count_answer index.now }
{
    index_calls::count(index)
}

// The entry at a place, counted from 0, or that there is none; refusal 10.
pub fn index_entry(index: &[i64], place: u32) -> Result<Option<Entry>, Refusal>
    ensures { entry_given result ≡ entry_answer place index.now }
{
    index_calls::entry(index, place)
}

// All frames of a region in a single pass: the numbers of an owner's entries which the region of a file holds, in index order, from element 0 of `numbers`
// on, with how many they are and how many point tests were made; `ranges` ends as `cover` leaves it. Refusals 18, the file's, then 10 where `ranges` has fewer
// than 4 × budget elements, `numbers` fewer than index::OWNER_CAPACITY, or `index` fewer than index::INDEX_LENGTH.
pub fn frames(
    index: &[i64],
    owner: u32,
    file: &[u8],
    ranges: &mut [u64],
    numbers: &mut [u32],
) -> Result<Frames, Refusal>
    ensures { FramesCall owner index.now file.now ranges.old numbers.old
        result ranges.new numbers.new }
{
    frames_calls::frames(index, owner, file, ranges, numbers)
}

// A trial of one region under two settings, each a depth and a budget that stand in for the header's: the two lists of each in its buffer, both results,
// and the choice. Refusals 18, the file's, 5 and 6 of the first setting, 5 and 6 of the second, then 10 where a buffer has fewer than 4 × its budget
// elements, or `index` fewer than index::INDEX_LENGTH.
pub fn trial(
    index: &[i64],
    owner: u32,
    file: &[u8],
    s: Setting,
    t: Setting,
    first: &mut [u64],
    second: &mut [u64],
) -> Result<Trial, Refusal>
    ensures { TrialCall owner index.now file.now s t first.old second.old
        result first.new second.new }
{
    trial_calls::trial(index, owner, file, s, t, first, second)
}

// The outer list that a trial chose, in its buffer: a part of one of the two, itself and not a copy. The empty part after a refused trial, or where the chosen
// buffer is shorter than the result's outer list. Any result may be handed in.
pub fn chosen<'a, E: Drop>(res: Result<Trial, E>, first: &'a [u64], second: &'a [u64]) -> &'a [u64]
    ensures { IsPart res first.entry second.entry result }
{
    trial_calls::chosen(res, first, second)
}
