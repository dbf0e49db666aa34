// Records of a region file in code: kinds and lengths, checked for 2 and 3; the first record with its payload reader, and the numbers of a halfspace. The
// rules stand in region/specs/Records, Reader and Bytes, the frame of a record in specs/Frames.
#![tactic(auto)]

ghost use Rattle.std.specs.Prelude.{◌≡◌, ◌+◌, ◌-◌, ◌≤◌, ◌<◌, length, drop};
ghost use Rattle.answer.specs.Calls.{answer_of};
ghost use Rattle.answer.specs.Answer.{with_value};
ghost use Rattle.region.specs.Bytes as bytes;
ghost use Rattle.region.specs.Records.{kind, size, allowed, is, record_of};
ghost use Rattle.region.specs.Reader.{whole, header, halfspace_of};
ghost use Rattle.region.specs.Reader as rule;
ghost use Rattle.region_records.specs.Frames.{frame_of};
ghost use Rattle.region_records.specs.Headers.{settings_in, settings_of};

use answer::Refusal;
use region::{Halfspace, Record};
use vector::Vec3;

pub mod bytes;

const IN_CONVEX: u32 = limits::IN_CONVEX as u32;

// The length of a record in bytes, and what it is.
#[derive(Clone, Copy)]
pub struct Frame {
    pub len: usize,
    pub record: Record,
}

// The 16 bits that begin at byte k of s.
fn word(s: &[u8], k: usize) -> u32
    requires { k + 2 ≤ length s.now }
    ensures value { result ≡ bytes.word s.now k }
    ensures upper_bound { result < 65536 }
{
    u32::from(u16::from_le_bytes([s[k], s[k + 1]]))
}

// The signed 32 bits that begin at byte k of s.
fn signed(s: &[u8], k: usize) -> i64
    requires { k + 4 ≤ length s.now }
    ensures { result ≡ bytes.signed s.now k }
{
    i64::from(i32::from_le_bytes([s[k], s[k + 1], s[k + 2], s[k + 3]]))
}

// 2: four bytes are left from `at` on, the length is four or more, and not past the end.
fn is_whole(file: &[u8], at: usize) -> bool
    requires { at ≤ length file.now }
    ensures { result ≡ whole (drop at file.now) }
{
    let left = file.len() - at;
    4 <= left && (4..=left).contains(&(word(file, at) as usize))
}

// The kind of a record.
// Kept: a match and not `From`, since a record has two numbers, its kind and its length, and `u32::from` would not say which.
pub fn kind_of(r: Record) -> u32
    ensures { (result ≡ kind r) × (result < 65536) }
{
    match r {
        Record::Header => 1,
        Record::Convex => 2,
        Record::Halfspace => 3,
        Record::End => 4,
        Record::Group(_) => 5,
    }
}

// The length of a record in bytes.
// Kept: a match, as above.
pub fn size_of(r: Record) -> u32
    requires { size r < 65536 }
    ensures { (result ≡ size r) × (result < 65536) }
{
    match r {
        Record::Header => 8,
        Record::Convex => 4,
        Record::Halfspace => 20,
        Record::End => 4,
        Record::Group(n) => 4 + 16 * n,
    }
}

// A group has 1 to 100 halfspaces.
fn is_allowed(r: Record) -> bool
    ensures { result ≡ allowed r }
{
    match r {
        Record::Group(n) => (1..=IN_CONVEX).contains(&n),
        _ => true,
    }
}

// Whether a record of this kind and length is r.
fn is_record(kind: u32, len: u32, r: Record) -> bool
    ensures { result ≡ is kind len r }
{
    kind == kind_of(r) && (is_allowed(r) && len == size_of(r))
}

// What a record of this kind and length is, or the refusal 3.
// Kept: the first that has this kind and length, so that no number of a kind and no length stands twice; a match on them would repeat those above.
fn record_of(kind: u32, len: u32) -> Result<Record, Refusal>
    requires { 4 ≤ len }
    ensures { answer_of result ≡ record_of kind len }
{
    let known = [
        Record::Header,
        Record::Convex,
        Record::Halfspace,
        Record::End,
        Record::Group((len - 4) / 16),
    ];
    known
        .iter()
        .copied()
        .find(|r| is_record(kind, len, *r))
        .ok_or(Refusal::Kind)
}

// The length of the record at `at` and what it is, or the refusal 2 or 3.
pub fn frame_at(file: &[u8], at: usize) -> Result<Frame, Refusal>
    requires { at ≤ length file.now }
    ensures { answer_of result ≡ frame_of (drop at file.now) }
{
    if !is_whole(file, at) {
        return Err(Refusal::Torn);
    }
    let len = word(file, at);
    let record = record_of(word(file, at + 2), len)?;
    Ok(Frame {
        len: len as usize,
        record,
    })
}

// Depth and budget of a region file.
#[derive(Clone, Copy)]
pub struct Settings {
    pub depth: u32,
    pub budget: u32,
}

impl Settings {
    // The two, or the first refusal: 5, 6.
    pub fn checked(depth: u32, budget: u32) -> Result<Settings, Refusal>
        ensures { answer_of result ≡ settings_in depth budget }
    {
        if !limits::is_depth(depth) {
            return Err(Refusal::Depth);
        }
        if !limits::is_budget(budget) {
            return Err(Refusal::Budget);
        }
        Ok(Settings { depth, budget })
    }
}

// The payload of kind 1: depth and budget.
fn header_payload(s: &[u8]) -> Result<Settings, Refusal>
    requires { 4 ≤ length s.now }
    ensures { answer_of result ≡ with_value settings_of (rule.header_of s.now) }
{
    Settings::checked(word(s, 0), word(s, 2))
}

// The first record: the header, or the refusal 2 to 6.
pub fn header_in(file: &[u8]) -> Result<Settings, Refusal>
    ensures { answer_of result ≡ with_value settings_of (header file.now) }
{
    let at = 0;
    let Frame { len, record } = frame_at(file, at)?;
    if record != Record::Header {
        return Err(Refusal::Order);
    }
    header_payload(&file[at + 4..at + len])
}

// The halfspace of a payload of kind 3: x, y, z and d.
pub fn halfspace_of(s: &[u8]) -> Halfspace
    requires { 16 ≤ length s.now }
    ensures { result ≡ halfspace_of s.now }
{
    let x = signed(s, 0);
    let y = signed(s, 4);
    let z = signed(s, 8);
    let d = signed(s, 12);
    Halfspace {
        n: Vec3 { x, y, z },
        d,
    }
}
