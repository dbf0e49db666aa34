// A command line as it is stored, and its words: numbers, pointings, files and floats in hexadecimal digits, lists of numbers.
#![tactic(auto)]

ghost use Rattle.std.specs.Prelude.{◌≡◌, [], ◌∷◌, ◌+◌, ◌-◌, ◌^◌, ◌<◌, ◌≤◌, length, IfSome, Some};
ghost use Rattle.std.specs.Iterator.{at_most};
ghost use Rattle.std.specs.Option.{ForSome, OnSome, is_none, option_map, option_map_or};
ghost use Rattle.std.specs.Result.{result_ok, is_ok, IfOk, OnOk};
ghost use Rattle.command_words.specs.Numbers.{UpTo, natural_from, natural_in, whole_in};
ghost use Rattle.command_words.specs.Files.{FileDigits, hex_value, bytes_in, file_length, file_place, BytePushed, ByteAppended, ByteStored};
ghost use Rattle.command_words.specs.Words.{left, blank_in, first_word, after_word, words_in, number_next, whole_next, point_next, file_next};

use limits::MAX_FILE_BYTES;
pub use lines::StoredLine;
use print::Fault;

pub mod lines;

// The bytes of a file that are read: one more than a region file may have.
pub const FILE_CAPACITY: usize = MAX_FILE_BYTES + 1;

// A line of 65536 bytes has no more numbers.
pub const WORD_CAPACITY: usize = 32768;

const BLANK: u8 = b' ';

// The largest numbers of 32 bits: without a sign, with one, and after a minus.
const LARGEST_NATURAL: u64 = u32::MAX as u64;

const LARGEST: u64 = i32::MAX as u64;

const LARGEST_NEGATIVE: u64 = LARGEST + 1;

// One digit less than a file of FILE_CAPACITY bytes has.
const FILE_DIGITS: usize = 2 * FILE_CAPACITY - 1;

// What is stored of a line while it comes: how many bytes, none where it is too long to be stored, and the place where its file begins while that comes.
#[derive(Clone, Copy)]
pub struct StoredBytes {
    pub bytes: Option<usize>,
    pub file: Option<usize>,
}

// Appends a byte to a line of which so many bytes are stored. A count above the line's length counts as too long. Of a file only as many digits are stored
// as show that it is too long for a region file, so a line with a file may have any length.
pub fn append_byte(line: &mut [u8], stored: StoredBytes, b: u8) -> StoredBytes
    ensures appended { ByteStored (file_place b stored.file) stored.bytes b line.old line.new result.bytes }
    ensures in_bounds { ForSome result.bytes (λ n. n ≤ length line.old) }
{
    if b == BLANK {
        let file = file_after(line, stored.bytes);
        let bytes = store(line, stored.bytes, None, b);
        return StoredBytes { bytes, file };
    }
    let bytes = store(line, stored.bytes, stored.file, b);
    StoredBytes {
        bytes,
        file: stored.file,
    }
}

// Where a file begins that follows the bytes so far and a blank, if the line has room for that.
fn file_after(line: &[u8], bytes: Option<usize>) -> Option<usize> {
    let n = bytes.filter(|n| *n < line.len())?;
    is_before_file(&line[..n]).then_some(n + 1)
}

// Appends a byte, with a file from `file` on.
fn store(line: &mut [u8], bytes: Option<usize>, file: Option<usize>, b: u8) -> Option<usize>
    ensures stored { ByteStored file bytes b line.old line.new result }
    ensures in_bounds { ForSome result (λ k. k ≤ length line.old) }
{
    let n = bytes.filter(|n| *n <= line.len())?;
    match file {
        Some(p) if FILE_DIGITS <= n.saturating_sub(p) => store_past(line, p, n, b),
        _ => push(line, n, b),
    }
}

// As above, where FILE_DIGITS of the file are stored: a digit is stored until a second one comes, and then both are dropped. Another byte takes the
// place of the first digit, so that there is no file. How many bytes are stored then, out of n.
fn store_past(line: &mut [u8], file: usize, n: usize, b: u8) -> Option<usize>
    requires file_bound { file + FileDigits ≤ n }
    requires n_in_bounds { n ≤ length line.old }
    ensures stored { ByteAppended (Some file) n b line.old line.new result }
    ensures in_bounds { ForSome result (λ k. k ≤ length line.old) }
{
    if digit(b).is_none() {
        line[file] = b;
        return Some(n);
    }
    if FILE_DIGITS < n - file {
        return Some(file + FILE_DIGITS);
    }
    push(line, n, b)
}

// Stores a byte behind the first n: how many they are then.
fn push(line: &mut [u8], n: usize, b: u8) -> Option<usize>
    ensures pushed { BytePushed n b line.old line.new result }
    ensures in_bounds { ForSome result (λ k. k ≤ length line.old) }
{
    if n < line.len() {
        line[n] = b;
        return Some(n + 1);
    }
    None
}

// Whether the word after these is a file, or a catalogue line, in digits: after the command's name or, for some commands, after the owner.
fn is_before_file(line: &[u8]) -> bool {
    let mut words = Words::of(line);
    matches!(
        (words.next(), words.next(), words.next()),
        (
            Some(b"rows" | b"togrouped" | b"toplain" | b"holds" | b"cover" | b"line"),
            None,
            _
        ) | (Some(b"frames" | b"trial"), Some(_), None)
    )
}

// The words of a line that are left, parted by one blank each.
#[derive(Clone, Copy)]
pub struct Words<'a> {
    rest: Option<&'a [u8]>,
}

impl<'a> Iterator for Words<'a> {
    type Item = &'a [u8];

    ghost remaining = { λ w. at_most (option_map_or (λ rest. length rest.now + 1) w.rest 0) };

    ghost next_gives = { λ w r v. (left r ≡ first_word (left w.rest)) × (left v.rest ≡ after_word (left w.rest)) };

    fn next(&mut self) -> Option<&'a [u8]> {
        let rest = self.rest?;
        match blank(rest) {
            Some(n) => {
                self.rest = Some(&rest[n + 1..]);
                Some(&rest[..n])
            },
            None => {
                self.rest = None;
                Some(rest)
            },
        }
    }
}

// The place of the first blank.
fn blank(line: &[u8]) -> Option<usize>
    ensures value { result ≡ blank_in line.now }
    ensures within { IfSome result (λ n. n < length line.now) }
{
    line.iter().position(|b| *b == BLANK)
}

impl<'a> Words<'a> {
    // The words of a line.
    pub fn of(line: &'a [u8]) -> Words<'a>
        ensures { left result.rest ≡ Some line.now }
    {
        Words { rest: Some(line) }
    }

    // Whether no word is left.
    pub fn is_over(&self) -> bool
        ensures { result ≡ is_none self.now.rest }
    {
        self.rest.is_none()
    }

    // Malformed where a word is left.
    pub fn end(self) -> Result<(), Fault>
        ensures { is_ok result ≡ is_none self.entry.rest }
    {
        match self.rest {
            None => Ok(()),
            Some(_) => Err(Fault::Malformed),
        }
    }

    // The next word.
    pub fn word(&mut self) -> Result<&'a [u8], Fault>
        ensures word { left (result_ok result) ≡ first_word (left self.old.rest) }
        ensures rest { left self.new.rest ≡ after_word (left self.old.rest) }
    {
        self.next().ok_or(Fault::Malformed)
    }

    // A number of 32 bits with no sign.
    pub fn natural(&mut self) -> Result<u32, Fault>
        ensures value { result_ok result ≡ number_next (2 ^ 32 - 1) (left self.old.rest) }
        ensures rest { left self.new.rest ≡ after_word (left self.old.rest) }
    {
        let n = natural_of(self.word()?, LARGEST_NATURAL).ok_or(Fault::Malformed)?;
        Ok(n as u32)
    }

    // A number of 32 bits with a minus or with no sign.
    fn whole(&mut self) -> Result<i32, Fault>
        ensures value { result_ok result ≡ whole_next (left self.old.rest) }
        ensures rest { left self.new.rest ≡ after_word (left self.old.rest) }
    {
        whole_of(self.word()?).ok_or(Fault::Malformed)
    }

    // Three whole numbers.
    pub fn point(&mut self) -> Result<(i32, i32, i32), Fault>
        ensures value { result_ok result ≡ point_next (left self.old.rest) }
        ensures rest { OnOk result (left self.new.rest ≡ after_word (after_word (after_word (left self.old.rest)))) }
    {
        Ok((self.whole()?, self.whole()?, self.whole()?))
    }

    // A number of 64 bits with no sign.
    pub fn identifier(&mut self) -> Result<u64, Fault>
        ensures value { result_ok result ≡ number_next (2 ^ 64 - 1) (left self.old.rest) }
        ensures rest { left self.new.rest ≡ after_word (left self.old.rest) }
    {
        natural_of(self.word()?, u64::MAX).ok_or(Fault::Malformed)
    }

    // The bits of a float: exactly `digits` hexadecimal digits, 16 at most.
    pub fn bits(&mut self, digits: usize) -> Result<u64, Fault>
        ensures word { OnOk result (option_map (λ w. length w) (first_word (left self.old.rest)) ≡ Some digits) }
        ensures rest { left self.new.rest ≡ after_word (left self.old.rest) }
    {
        bits_of(self.word()?, digits).ok_or(Fault::Malformed)
    }

    // The bytes of a file, stored in `to`.
    pub fn file<'b>(&mut self, to: &'b mut [u8; FILE_CAPACITY]) -> Result<&'b [u8], Fault>
        ensures length { file_length (result_ok result) ≡ file_next (left self.old.rest) }
        ensures rest { left self.new.rest ≡ after_word (left self.old.rest) }
    {
        file(self.word()?, to).ok_or(Fault::Malformed)
    }

    // The words that are left, each a whole number, stored in `to`.
    pub fn numbers<'b>(self, to: &'b mut [i32; WORD_CAPACITY]) -> Result<&'b [i32], Fault>
        ensures { IfOk result (λ numbers. length numbers.now ≡ length (words_in (left self.entry.rest))) }
    {
        let numbers = to.get_mut(..self.count()).ok_or(Fault::Malformed)?;
        for (number, word) in numbers.iter_mut().zip(self) {
            *number = whole_of(word).ok_or(Fault::Malformed)?;
        }
        Ok(numbers)
    }
}

// A number up to `most`.
fn natural_of(word: &[u8], most: u64) -> Option<u64>
    ensures value { result ≡ natural_in most word.now }
    ensures up_to { UpTo most result }
{
    if word.is_empty() {
        return None;
    }
    let mut n: u64 = 0;
    for b in word {
        n = with_digit(n, *b, most)?;
    }
    Some(n)
}

// A number of 32 bits, with a minus or with no sign.
fn whole_of(word: &[u8]) -> Option<i32>
    ensures { result ≡ whole_in word.now }
{
    match word {
        [b'-', digits @ ..] => natural_of(digits, LARGEST_NEGATIVE).map(|n| (-(n as i64)) as i32),
        _ => natural_of(word, LARGEST).map(|n| n as i32),
    }
}

// Appends a digit to n.
fn with_digit(n: u64, byte: u8, most: u64) -> Option<u64>
    ensures { result ≡ natural_from most n (byte ∷ []) }
{
    if !byte.is_ascii_digit() {
        return None;
    }
    let sum = n.checked_mul(10)?.checked_add((byte - b'0') as u64)?;
    (sum <= most).then_some(sum)
}

// The bytes of a file: two digits each, and `-` for a file with no bytes. Of a longer file the first FILE_CAPACITY bytes are stored.
fn file<'a>(word: &[u8], to: &'a mut [u8; FILE_CAPACITY]) -> Option<&'a [u8]>
    ensures { file_length result ≡ bytes_in word.now }
{
    if word == b"-".as_slice() {
        return Some(&to[..0]);
    }
    let (pairs, odd) = word.as_chunks::<2>();
    if pairs.is_empty() || !odd.is_empty() {
        return None;
    }
    for (i, [high, low]) in pairs.iter().enumerate() {
        let value = digit(*high)? * 16 + digit(*low)?;
        if i < FILE_CAPACITY {
            to[i] = value as u8;
        }
    }
    Some(&to[..pairs.len().min(FILE_CAPACITY)])
}

fn bits_of(word: &[u8], digits: usize) -> Option<u64>
    ensures { OnSome result (length word.now ≡ digits) }
{
    if word.len() != digits {
        return None;
    }
    word.iter()
        .try_fold(0u64, |n, b| Some(n << 4 | digit(*b)? as u64))
}

// The value of a hexadecimal digit.
fn digit(byte: u8) -> Option<u32>
    ensures value { result ≡ hex_value byte }
    ensures upper_bound { IfSome result (λ d. d < 16) }
{
    (byte as char).to_digit(16)
}
