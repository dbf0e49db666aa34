// The writer of region files in either style: the rows are checked, then written record after record. The rules stand in region/specs/Writer and Answers,
// what is written of a region that grows in specs/Writing.
#![tactic(auto)]

ghost use Rattle.std.specs.Prelude.{◌≡◌, ◌+◌, ◌*◌, ◌≤◌, ◌<◌, length};
ghost use Rattle.algebra.proofs.Sizes.{Upto};
ghost use Rattle.answer.specs.Answer.{gives};
ghost use Rattle.answer.specs.Calls.{answer_of};
ghost use Rattle.answer.specs.Lent.{put};
ghost use Rattle.vector.specs.Numbers.{Kℕ};
ghost use Rattle.vector.proofs.Sizes.{Small};
ghost use Rattle.region.specs.Regions.{Region};
ghost use Rattle.region.specs.Rows.{region_of};
ghost use Rattle.region.specs.Writer.{file_in, write_in};
ghost use Rattle.region.specs.Answers.{file_answer, file_after};
ghost use Rattle.region_writer.specs.Writing as writing;
ghost use Rattle.region_writer.specs.Writing.{with_convex_at, with_halfspace_at, RegionStands, RowFits, FileFits, RowsStand};

use answer::Refusal;
use region::{Halfspace, Record, Style};
use region_records::Settings;
use region_rows::counts::RegionSize;

// Where the next record goes, how many convexes are written, and how many halfspaces of the last one.
// Kept: not the reader's `State`, since what was checked is written without a count of all halfspaces and without a limit that could refuse.
#[derive(Clone, Copy)]
pub struct WriteCursor {
    pub at: usize,
    pub convexes: u16,
    pub last: u32,
}

// The bytes that a halfspace takes.
// Kept: a length and no number for the style, so no conversion.
fn width(style: Style) -> usize
    ensures { (result ≡ writing.width style) × (result ≤ 20) }
{
    match style {
        Style::Plain => 20,
        Style::Grouped => 16,
    }
}

// The record with which a convex begins: a group has no halfspace yet.
fn opening(style: Style) -> Record
    ensures { result ≡ writing.opening style }
{
    match style {
        Style::Plain => Record::Convex,
        Style::Grouped => Record::Group(0),
    }
}

// Begins a convex. The cursor after it.
fn put_convex(style: Style, out: &mut [u8], p: WriteCursor) -> WriteCursor
    requires { (p.at + 4 ≤ length out.old) × (p.convexes ≤ 64) }
    ensures value { result ≡ record { at = p.at + 4; convexes = p.convexes + 1; last = 0 } }
    ensures out_after { out.new ≡ with_convex_at style p out.old }
{
    region_records::bytes::put_kind(out, p.at, opening(style));
    WriteCursor {
        at: p.at + 4,
        convexes: p.convexes + 1,
        last: 0,
    }
}

// Adds a halfspace to the last convex: its own record, or its numbers behind those of the group, whose length is brought up to date. The cursor after it.
fn put_halfspace(style: Style, out: &mut [u8], p: WriteCursor, h: Halfspace) -> WriteCursor
    requires style_in_bounds { (p.at + writing.width style ≤ length out.old) × (4 + 16 * p.last ≤ p.at) × (p.last < 100) }
    requires small { Small h.n }
    requires upto { Upto Kℕ h.d }
    ensures value { result ≡ record { at = p.at + writing.width style; convexes = p.convexes; last = p.last + 1 } }
    ensures out_after { out.new ≡ with_halfspace_at style p h out.old }
{
    let at = p.at;
    let n = p.last + 1;
    let next = WriteCursor {
        at: at + width(style),
        convexes: p.convexes,
        last: n,
    };
    match style {
        Style::Plain => {
            region_records::bytes::put_kind(out, at, Record::Halfspace);
            region_records::bytes::put_numbers(out, at + 4, h);
        }
        Style::Grouped => {
            let begins = at - (4 + 16 * (p.last as usize));
            region_records::bytes::put_kind(out, begins, Record::Group(n));
            region_records::bytes::put_numbers(out, at, h);
        }
    }
    next
}

// Adds a row with the number c: a convex begins where c is the next number. The cursor after it.
fn put_row(style: Style, out: &mut [u8], p: WriteCursor, c: i64, h: Halfspace) -> WriteCursor
    requires { RowFits style out.old p c h }
    ensures { (f : RowFits style out.old p c h) → RegionStands style f.next f.before out.new result }
{
    if region_rows::checks::is_number(c, p.convexes) {
        let opened = put_convex(style, out, p);
        return put_halfspace(style, out, opened, h);
    }
    put_halfspace(style, out, p, h)
}

// The records of all rows, from element 8 on. The position after them.
fn put_rows(style: Style, rows: &[i32], out: &mut [u8]) -> usize
    requires { FileFits style rows.now (length out.old) }
    ensures { RowsStand style rows.now out.old out.new result }
{
    let (fives, _) = rows.as_chunks::<5>();
    let mut p = WriteCursor {
        at: 8,
        convexes: 0,
        last: 0,
    };
    for row in fives {
        let number = region_rows::number_at(row, 0);
        p = put_row(style, out, p, number, region_rows::halfspace_at(row, 0));
    }
    p.at
}

// The file of rows that were checked, at the beginning of `out`.
// Kept: that depth and budget are in range is a clause, as this alone asks it of `Settings`.
fn put_file(style: Style, settings: Settings, rows: &[i32], out: &mut [u8])
    requires depth_bound { (settings.depth ≤ 12) × (settings.budget ≤ 2048) }
    requires file_fits { FileFits style rows.now (length out.old) }
    ensures { (g : Region) → region_of rows.now ≡ gives g
        → out.new ≡ put 0 (file_in style settings.depth settings.budget g) out.old }
{
    region_records::bytes::put_kind(out, 0, Record::Header);
    region_records::bytes::put_word(out, 4, settings.depth);
    region_records::bytes::put_word(out, 6, settings.budget);
    let at = put_rows(style, rows, out);
    region_records::bytes::put_kind(out, at, Record::End);
}

// The length of a file: header and end, what begins a convex for each of them, and the bytes of each halfspace.
fn file_length(style: Style, c: RegionSize) -> usize
    requires { (c.convexes ≤ 64) × (c.all ≤ 512) }
    ensures { result ≡ 12 + 4 * c.convexes + writing.width style * c.all }
{
    12 + 4 * (c.convexes as usize) + width(style) * (c.all as usize)
}

// The region file of rows, depth and budget, written at the beginning of `out`: its length, or the first refusal (5, 6, then no rows and whole
// fives (4), then each row for 4, 7, 8, 9; 10 last), and then nothing is written.
pub fn write(
    style: Style,
    depth: u32,
    budget: u32,
    rows: &[i32],
    out: &mut [u8],
) -> Result<u64, Refusal>
    ensures result_value { answer_of result ≡ file_answer (write_in style depth budget rows.now) out.old }
    ensures out_after { out.new ≡ file_after (write_in style depth budget rows.now) out.old }
{
    let settings = Settings::checked(depth, budget)?;
    let counts = region_rows::checks::checked(rows)?;
    let len = file_length(style, counts);
    if out.len() < len {
        return Err(Refusal::Space);
    }
    put_file(style, settings, rows, out);
    Ok(len as u64)
}
