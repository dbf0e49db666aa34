// What is printed of region files: their rows as numbers, their bytes in digits, and the answer of the point test.
ghost use Rattle.std.specs.Prelude.{◌≡◌, ◌*◌, ◌≤◌, ◌<◌, false, length, take, Some, IsAscii};
ghost use Rattle.std.specs.Fmt.{digit_glyph};
ghost use Rattle.print.specs.Texts.{digits_text};

use crate::Output;
use region::Header;
use std::fmt::Write;
use std::{fmt, str};

// How many bytes are put into digits at once.
const PART: usize = 64;

// The answer of the point test.
pub fn held(out: &mut Output, is_held: bool) -> fmt::Result {
    out.write_str(if is_held { "yes\n" } else { "no\n" })
}

// Depth, budget and count, and then the numbers of the rows, five each.
pub fn rows(out: &mut Output, header: Header, numbers: &[i32]) -> fmt::Result {
    write!(out, "{} {} {}", header.depth, header.budget, header.count)?;
    out.list(numbers)?;
    out.write_str("\n")
}

// Bytes in hexadecimal digits, two each.
#[derive(Clone, Copy)]
pub struct Digits<'a>(pub &'a [u8]);

impl<'a> fmt::Display for Digits<'a> {
    ghost output = { λ d. Some (digits_text d.0.now) };

    fn fmt<W: fmt::Write>(&self, f: &mut fmt::Formatter<W>) -> fmt::Result {
        let mut text = [0u8; 2 * PART];
        for part in self.0.chunks(PART) {
            put_digits(part, &mut text);
            let Ok(digits) = str::from_utf8(&text[..2 * part.len()]) else {
                unreachable!();
            };
            f.write_str(digits)?;
        }
        Ok(())
    }
}

// Puts the digits of a part, which are ASCII, at the beginning of `text`.
fn put_digits(part: &[u8], text: &mut [u8; 2 * PART])
    requires { length part.now ≤ PART }
    ensures digits { take (2 * length part.now) text.new ≡ digits_text part.now }
    ensures ascii { IsAscii (digits_text part.now) }
{
    for (i, b) in part.iter().enumerate() {
        text[2 * i] = digit(*b / 16);
        text[2 * i + 1] = digit(*b % 16);
    }
}

// The digit of a value below 16.
fn digit(value: u8) -> u8
    requires { value < 16 }
    ensures { result ≡ digit_glyph false value }
{
    if value < 10 {
        b'0' + value
    } else {
        b'a' + (value - 10)
    }
}
