// The lines of standard input, one after the other. A line that lies in one block of the input is answered where it lies; of one that does not, the
// bytes are stored until it ends. What is collected for standard output is written before each read. After a read that failed the line that has begun is
// not answered, and after a write that failed nothing more is read.
ghost use Rattle.std.specs.Prelude.{◌≡◌, ◌≤◌, Some, None};
ghost use Rattle.std.specs.Option.{ForSome};
ghost use Rattle.command_words.specs.Files.{file_place, ByteStored};

use crate::StoredBytes;
use print::{Buffer, Fault, Output};
use streams::Streams;

// No run has so many blocks.
const BLOCKS: u64 = u64::MAX;

const LINE_FEED: u8 = b'\n';

// A line without its line feed, and with it. A last line may have none. A line that is too long to be stored has no bytes.
#[derive(Clone, Copy)]
pub struct Line<'a> {
    pub text: &'a [u8],
    pub with_feed: &'a [u8],
}

// What is stored of a line while it comes.
// Kept: a buffer and a count, and no Vec, as the programs take no heap.
#[derive(Clone, Copy)]
pub struct StoredLine {
    line: Buffer,
    stored: StoredBytes,
    ghost within: { ForSome stored.bytes (λ n. n ≤ 65536) },
}

impl StoredLine {
    // A line of which nothing has come.
    pub fn empty() -> StoredLine
        ensures { (result.stored.bytes ≡ Some 0) × (result.stored.file ≡ None) }
    {
        StoredLine {
            line: io::large_buffer(),
            stored: StoredBytes {
                bytes: Some(0),
                file: None,
            },
        }
    }

    // The next line: nothing has come of it.
    fn clear(&mut self) {
        self.stored.bytes = Some(0);
        self.stored.file = None;
    }

    // Appends a byte.
    pub fn append(&mut self, b: u8)
        ensures { ByteStored (file_place b self.old.stored.file) self.old.stored.bytes b self.old.line self.new.line self.new.stored.bytes }
    {
        self.stored = crate::append_byte(&mut self.line, self.stored, b);
    }

    // Appends bytes as they come, in which a file may begin.
    fn extend(&mut self, part: &[u8]) {
        for b in part {
            self.append(*b);
        }
    }

    // The line that ends with this part of the input, if it does: the part is all of it, or stands behind what is stored. A part that ends no line is stored.
    fn ended<'a>(&'a mut self, part: &'a [u8]) -> Option<Line<'a>> {
        let Some(text) = part.strip_suffix(&[LINE_FEED]) else {
            self.extend(part);
            return None;
        };
        if self.stored.bytes == Some(0) {
            return Some(Line {
                text,
                with_feed: part,
            });
        }
        self.extend(text);
        let to = self.stored.bytes;
        let after = crate::store(&mut self.line, to, None, LINE_FEED);
        Some(Line {
            text: self.first(to),
            with_feed: self.first(after),
        })
    }

    // The last line, which has no line feed, if something has come of it.
    fn last(&self) -> Option<Line<'_>> {
        if self.stored.bytes == Some(0) {
            return None;
        }
        let text = self.first(self.stored.bytes);
        Some(Line {
            text,
            with_feed: text,
        })
    }

    // The first n bytes. A line that is too long to be stored has none.
    fn first(&self, n: Option<usize>) -> &[u8]
        requires { ForSome n (λ k. k ≤ 65536) }
    {
        &self.line[..n.unwrap_or(0)]
    }
}

// Answers each line of the input.
pub fn answer_lines<F: FnMut(Line<'_>, &mut Output) -> Result<(), Fault>>(
    streams: Streams,
    mut answer: F,
)
    requires { F.IsAlwaysCallable answer }
{
    let mut block: Buffer = io::large_buffer();
    let mut store = StoredLine::empty();
    let mut out = Output::new(streams);
    // Kept: a count, as a loop with no end needs the handle Wait, and this repository allows no handle.
    for _ in 0..BLOCKS {
        if out.flush().is_err() {
            return;
        }
        let Ok(n) = streams.read(&mut block) else {
            return;
        };
        if n == 0 {
            break;
        }
        for part in block[..n].split_inclusive(|b| *b == LINE_FEED) {
            if let Some(line) = store.ended(part) {
                let said = answer(line, &mut out);
                if out.ended(said).is_err() {
                    return;
                }
                store.clear();
            }
        }
    }
    if let Some(line) = store.last() {
        let said = answer(line, &mut out);
        if out.ended(said).is_err() {
            return;
        }
    }
    let _ = out.flush();
}
