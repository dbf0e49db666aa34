// What the programs print: bytes, numbers, names and refusals, collected until a buffer is full. After a write that failed nothing more is written.
#![tactic(auto)]

ghost use Rattle.std.specs.Prelude.{◌≡◌, ◌≤◌, true, false, [], Some};
ghost use Rattle.std.specs.Option.{ForSome};
ghost use Rattle.std.specs.Result.{is_ok};
ghost use Rattle.print.specs.declared.Fault.{Fault};
ghost use Rattle.print.specs.Lost.{lost, is_lost};
ghost use Rattle.print.specs.Texts.{refused_text, point_text};

use answer::Refusal;
use std::fmt;
use std::fmt::Write;
use streams::Streams;
use vector::Vec3;

pub mod covers;
pub mod regions;

// How many bytes a buffer has.
const SIZE: usize = 65536;

// How many bytes a name has at most: a letter and 31 digits.
// Kept: the like of mesh_names, on which this crate does not stand; in a shorter buffer `name` of htm would be refused.
const NAME_BYTES: usize = 32;

pub type Buffer = [u8; SIZE];

// Why a line has no answer but `usage` or a refusal, or none at all: it is malformed, it is refused, or standard output takes no more.
// Kept: the error of a Result, with three causes, each of which prints something else; an Option<Refusal> would not tell the other two apart.
#[derive(Clone, Copy)]
pub enum Fault {
    Malformed,
    Refused(Refusal),
    Lost,
}

impl From<Refusal> for Fault {
    ghost from_gives = { λ n fault. fault ≡ Fault.Refused n };

    fn from(n: Refusal) -> Fault {
        Fault::Refused(n)
    }
}

impl From<fmt::Error> for Fault {
    ghost from_gives = { λ _ fault. fault ≡ Fault.Lost };

    fn from(_e: fmt::Error) -> Fault {
        Fault::Lost
    }
}

// What is collected for standard output: so many bytes at the buffer's beginning, or none after a write that failed.
// Kept: a buffer and its end, and no Vec, as the programs take no heap.
#[derive(Drop)]
pub struct Output {
    streams: Streams,
    buffer: Buffer,
    end: Option<usize>,
    ghost within: { ForSome end (λ n. n ≤ 65536) },
}

impl Output {
    // With nothing collected.
    pub fn new(streams: Streams) -> Output
        ensures { result.end ≡ Some 0 }
    {
        Output {
            streams,
            buffer: io::large_buffer(),
            end: Some(0),
        }
    }

    fn byte(&mut self, b: u8) -> fmt::Result
        ensures { self.old.end ≡ lost → self.new.end ≡ lost }
    {
        let mut end = self.end.ok_or(fmt::Error)?;
        if end == SIZE {
            self.flush()?;
            end = 0;
        }
        self.buffer[end] = b;
        self.end = Some(end + 1);
        Ok(())
    }

    pub fn bytes(&mut self, part: &[u8]) -> fmt::Result
        ensures { self.old.end ≡ lost → self.new.end ≡ lost }
    {
        // Kept: a `for`, as nothing is known of what the closure of a `try_for_each` changed, and the clause is of that.
        for b in part {
            self.byte(*b)?;
        }
        Ok(())
    }

    // The name of an identifier, or the refusal of a number that is none.
    pub fn name(&mut self, id: u64) -> fmt::Result {
        let mut name = [0u8; NAME_BYTES];
        match htm::name(id, &mut name) {
            Ok(n) => self.bytes(&name[..least(n, NAME_BYTES)]),
            Err(n) => write!(self, "{}", Refused(n.number())),
        }
    }

    // The identifier that a lookup gives, its name, and the line's end.
    pub fn located(&mut self, id: u64) -> fmt::Result {
        write!(self, "{id} ")?;
        self.name(id)?;
        self.write_str("\n")
    }

    // The numbers, each behind a blank.
    pub fn list<T: fmt::Display>(&mut self, numbers: &[T]) -> fmt::Result
        ensures { numbers.now ≡ [] → (is_ok result ≡ true) × (self.new.end ≡ self.old.end) }
    {
        for n in numbers {
            write!(self, " {n}")?;
        }
        Ok(())
    }

    // The end of an answer: what is printed where it was not given.
    pub fn ended(&mut self, answer: Result<(), Fault>) -> fmt::Result
        ensures given { is_ok answer ≡ true → (is_ok result ≡ true) × (self.new.end ≡ self.old.end) }
        ensures lost { is_lost answer ≡ true → (is_ok result ≡ false) × (self.new.end ≡ self.old.end) }
    {
        match answer {
            Ok(()) => Ok(()),
            Err(Fault::Malformed) => self.write_str("usage\n"),
            Err(Fault::Refused(n)) => writeln!(self, "{}", Refused(n.number())),
            Err(Fault::Lost) => Err(fmt::Error),
        }
    }

    // Writes what was collected.
    pub fn flush(&mut self) -> fmt::Result
        ensures { self.old.end ≡ lost → self.new.end ≡ lost }
    {
        let end = self.end.ok_or(fmt::Error)?;
        self.end = None;
        self.streams
            .write(&self.buffer[..end])
            .map_err(|_| fmt::Error)?;
        self.end = Some(0);
        Ok(())
    }
}

impl Write for Output {
    fn write_str(&mut self, s: &str) -> fmt::Result {
        self.bytes(s.as_bytes())
    }
}

// A refusal by its number, as it is printed.
#[derive(Clone, Copy)]
pub struct Refused(pub u32);

impl fmt::Display for Refused {
    ghost output = { λ r. Some (refused_text r.0) };

    fn fmt<W: fmt::Write>(&self, f: &mut fmt::Formatter<W>) -> fmt::Result {
        write!(f, "refused {}", self.0)
    }
}

// A vector, as it is printed.
#[derive(Clone, Copy)]
pub struct Point(pub Vec3);

impl fmt::Display for Point {
    ghost output = { λ p. Some (point_text p.0) };

    fn fmt<W: fmt::Write>(&self, f: &mut fmt::Formatter<W>) -> fmt::Result {
        write!(f, "{} {} {}", self.0.x, self.0.y, self.0.z)
    }
}

// The lesser of a length that is given as a number and `most`.
pub fn least(n: u64, most: usize) -> usize
    ensures { result ≤ most }
{
    n.min(most as u64) as usize
}

#[cfg(test)]
mod tests {
    use super::*;

    // A file of one halfspace, of depth 1 and budget 1.
    const FILE: [u8; 32] = [
        8, 0, 1, 0, 1, 0, 1, 0, 20, 0, 5, 0, 93, 21, 244, 255, 98, 76, 10, 0, 171, 46, 253, 255,
        30, 34, 1, 0, 4, 0, 4, 0,
    ];

    // What is collected.
    fn collected(out: &Output) -> Option<&[u8]> {
        out.buffer.get(..out.end?)
    }

    #[test]
    fn lines_of_a_cover_are_parted_by_any_character(rt: HostRuntime) {
        let mut out = Output::new(Streams::of(&rt));
        assert_eq!(rt; covers::lines(&mut out, &FILE, '·').is_ok(), true);
        assert_eq!(rt;
            collected(&out),
            Some(
                "depth 1 outer 1 inner 1 seen 8 full 1 partial 6 swallowed 1·o S0 N3·i S1 S1\n".as_bytes()
            )
        );
    }

    #[test]
    fn lines_of_a_cover_are_parted_by_any_byte(rt: HostRuntime) {
        let mut out = Output::new(Streams::of(&rt));
        assert_eq!(rt; covers::lines_by_byte(&mut out, &FILE, 255).is_ok(), true);
        assert_eq!(rt;
            collected(&out),
            Some(
                b"depth 1 outer 1 inner 1 seen 8 full 1 partial 6 swallowed 1\xffo S0 N3\xffi S1 S1\n".as_slice()
            )
        );
    }

    #[test]
    fn a_file_that_is_refused_has_no_lines(rt: HostRuntime) {
        let mut out = Output::new(Streams::of(&rt));
        let answer = covers::lines(&mut out, &FILE[..31], '|');
        assert_eq!(rt; out.end, Some(0));
        assert_eq!(rt; out.ended(answer).is_ok(), true);
        assert_eq!(rt; collected(&out), Some(b"refused 2\n".as_slice()));
    }
}
