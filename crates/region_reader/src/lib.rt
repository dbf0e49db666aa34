// The reader of region files of both styles: one pass over the records, and the call that gives the rows. The rules stand in region/specs/Records,
// Reader and Answers, what a pass gives in specs/Reading.
#![tactic(auto)]

ghost use Rattle.std.specs.Prelude.{◌≡◌, ◌-◌, ◌≤◌, length};
ghost use Rattle.answer.specs.Calls.{answer_of};
ghost use Rattle.answer.specs.Answer.{gives, with_value};
ghost use Rattle.answer.specs.Lent.{put};
ghost use Rattle.region.specs.declared.Record.{Record};
ghost use Rattle.region.specs.Regions.{Region};
ghost use Rattle.region.specs.Rows as region;
ghost use Rattle.region.specs.Records.{Styles};
ghost use Rattle.region.specs.Records as records;
ghost use Rattle.region.specs.Reader.{File, style_of};
ghost use Rattle.region.specs.Reader as rule;
ghost use Rattle.region.specs.Answers.{header_of, read_answer, read_after};
ghost use Rattle.region.proofs.ReaderLaws.{Begins};
ghost use Rattle.region_reader.specs.Reading.{RecordStep, records_after, RowsGiven, FilledRows};

use answer::Refusal;
use limits::{HALFSPACES, MAX_FILE_BYTES};
use region::{Header, Record, Style};
use region_payloads::{State, Step};
use region_records::{Frame, Settings};
use std::ops::ControlFlow;

// 14: the record may stand in a file of this style.
fn fits(style: Style, r: Record) -> bool
    ensures { result ≡ records.fits (Styles.only style) r }
{
    match r {
        Record::Header | Record::End => true,
        Record::Convex | Record::Halfspace => style == Style::Plain,
        Record::Group(_) => style == Style::Grouped,
    }
}

// The style of a file that has a header: that of the record after it.
pub fn style_of(file: &[u8]) -> Style
    requires { Begins file.now Record.Header }
    ensures { result ≡ style_of file.now }
{
    match region_records::frame_at(file, 8) {
        Ok(
            Frame {
                record: Record::Group(_),
                ..
            },
        ) => Style::Grouped,
        _ => Style::Plain,
    }
}

// The record at the state's position, checked for 2, 3 and 14: its payload is handed on, as that part of the file, to the payload reader of its kind.
fn record_in(
    file: &[u8],
    style: Style,
    s: State,
    rows: &mut [i32; 5 * HALFSPACES],
) -> Result<Step, Refusal>
    requires { s.at ≤ length file.now }
    ensures { RecordStep style file.now s rows.old (answer_of result) rows.new }
{
    let at = s.at;
    let frame = region_records::frame_at(file, at)?;
    if !fits(style, frame.record) {
        return Err(Refusal::Mixed);
    }
    let payload = &file[at + 4..at + frame.len];
    let next = at + frame.len;
    match frame.record {
        Record::Header => region_payloads::header_again(payload),
        Record::Convex => region_payloads::convex_payload(payload, s, next),
        Record::Halfspace => region_payloads::halfspace_payload(payload, s, next, rows),
        Record::End => region_payloads::end_payload(payload, s, file.len() - next),
        Record::Group(_) => region_payloads::group_payload(payload, s, next, rows),
    }
}

// The records after the header of a file of this style, which has these settings, to the end; their rows are written from the beginning of `rows` on.
fn records_in(
    file: &[u8],
    style: Style,
    settings: Settings,
    rows: &mut [i32; 5 * HALFSPACES],
) -> Result<Header, Refusal>
    requires { 8 ≤ length file.now }
    ensures result_value { answer_of result ≡ with_value header_of (records_after style settings file.now) }
    ensures rows_given { RowsGiven (records_after style settings file.now) rows.old rows.new }
{
    let mut s = State {
        at: 8,
        counts: region_rows::counts::none(),
    };
    // Kept: `while let` would be no plainer, as the step that ends the loop holds the count that is returned.
    loop {
        match record_in(file, style, s, rows)? {
            ControlFlow::Continue(next) => {
                s = next;
            }
            ControlFlow::Break(count) => {
                return Ok(Header {
                    count,
                    depth: settings.depth,
                    budget: settings.budget,
                });
            }
        }
    }
}

// The one pass over a file that reader, point test and cover share: count, depth and budget, with the rows at the beginning of `rows`, which is
// long enough for 512 rows of five; or the refusal of the first failed check, and then nothing is promised about `rows`.
pub fn decode(file: &[u8], rows: &mut [i32; 5 * HALFSPACES]) -> Result<Header, Refusal>
    ensures result_value { answer_of result ≡ with_value header_of (rule.read file.now) }
    ensures rows_after { (x : File) → rule.read file.now ≡ gives x
        → rows.new ≡ put 0 (region.rows x.region) rows.old }
{
    if MAX_FILE_BYTES < file.len() {
        return Err(Refusal::Long);
    }
    let settings = region_records::header_in(file)?;
    records_in(file, style_of(file), settings, rows)
}

// How many convexes the region of n decoded rows has: one more than the number of its last row.
pub fn convexes_in(rows: &[i32; 5 * HALFSPACES], n: usize) -> u64
    requires { (g : Region) × FilledRows g n rows.now }
    ensures { (g : Region) → FilledRows g n rows.now → result ≡ length g }
{
    rows[5 * (n - 1)] as u64 + 1
}

// The reader: count, depth and budget as written, with the rows at the beginning of the lent list; or the refusal of the first failed check, 10 last,
// and then no lent element is changed.
pub fn read(file: &[u8], rows: &mut [i32]) -> Result<Header, Refusal>
    ensures result_value { answer_of result ≡ read_answer file.now rows.old }
    ensures rows_after { rows.new ≡ read_after file.now rows.old }
{
    let mut decoded = [0i32; 5 * HALFSPACES];
    let h = decode(file, &mut decoded)?;
    let n = 5 * (h.count as usize);
    if rows.len() < n {
        return Err(Refusal::Space);
    }
    rows[..n].copy_from_slice(&decoded[..n]);
    Ok(h)
}
