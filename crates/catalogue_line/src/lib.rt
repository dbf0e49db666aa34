// Catalogue lines in code: three decimals parted by one blank and closed by a line feed. The rule stands in specs/Lines, what the parts give in
// specs/Reading. A line is read from its beginning to the first byte that does not fit, and so no further than the longest line.
#![tactic(auto)]

ghost use Rattle.std.specs.Prelude.{◌≡◌, ◌*◌, ◌/◌, ◌^◌, ◌≤◌, ◌<◌};
ghost use Rattle.answer.specs.Calls.{answer_of};
ghost use Rattle.algebra.proofs.Sizes.{Upto};
ghost use Rattle.vector.specs.Numbers.{Kℕ, signed};
ghost use Rattle.catalogue_line.specs.Lines.{unsigned_in, decimal_in, next_in, is_end, pointing_in};
ghost use Rattle.catalogue_line.specs.Reading.{Reads, read_given, valued, vector_given};

use answer::Refusal;
use limits::UNSIGNED_K;
use vector::Vec3;

// The most digits of a decimal.
const DIGITS: u32 = 7;

// The value of a decimal times K, and what follows it.
#[derive(Clone, Copy)]
pub struct ReadDecimal<'a> {
    pub value: i64,
    pub rest: &'a [u8],
}

// The number of a decimal's digits, with the whole part before them, their power of ten, and what follows them.
#[derive(Clone, Copy)]
pub struct Fraction<'a> {
    pub number: u64,
    pub power: u64,
    pub rest: &'a [u8],
}

// The digits at the beginning of some bytes, at most seven, after the whole part.
fn digits(bytes: &[u8], whole: u64) -> Fraction<'_>
    requires { whole ≤ 1 }
    ensures { Reads whole bytes.now result }
{
    let mut number = whole;
    let mut power: u64 = 1;
    let mut rest = bytes;
    for _ in 0..DIGITS {
        let [digit @ b'0'..=b'9', after @ ..] = rest else {
            break;
        };
        number = number * 10 + u64::from(*digit - b'0');
        power *= 10;
        rest = after;
    }
    Fraction {
        number,
        power,
        rest,
    }
}

// A number of digits times K, divided by their power of ten; then the sign.
// Kept: its last line is that of mount's `with_sign`: below both stand algebra, answer and vector alone (crates.txt), and a call there would be as long.
fn scaled(negative: bool, number: u64, power: u64) -> i64
    requires { (number < 2 ^ 32) × (1 ≤ power) }
    ensures { (result ≡ signed negative (number * Kℕ / power)) × Upto (2 ^ 52) result }
{
    let size = (number * UNSIGNED_K / power) as i64;
    if negative { -size } else { size }
}

// The decimal at the beginning of some bytes, after its sign: a 0 or 1, a point, one to seven digits.
fn unsigned_in(bytes: &[u8], negative: bool) -> Option<ReadDecimal<'_>>
    ensures { read_given result ≡ valued (unsigned_in negative bytes.now) }
{
    let [whole @ b'0'..=b'1', b'.', after @ ..] = bytes else {
        return None;
    };
    let [b'0'..=b'9', ..] = after else {
        return None;
    };
    let d = digits(after, u64::from(*whole - b'0'));
    Some(ReadDecimal {
        value: scaled(negative, d.number, d.power),
        rest: d.rest,
    })
}

// The decimal at the beginning of some bytes.
fn decimal_in(bytes: &[u8]) -> Option<ReadDecimal<'_>>
    ensures { read_given result ≡ valued (decimal_in bytes.now) }
{
    match bytes {
        [b'-', after @ ..] => unsigned_in(after, true),
        _ => unsigned_in(bytes, false),
    }
}

// A blank, and the decimal after it.
fn next_in(bytes: &[u8]) -> Option<ReadDecimal<'_>>
    ensures { read_given result ≡ valued (next_in bytes.now) }
{
    match bytes {
        [b' ', after @ ..] => decimal_in(after),
        _ => None,
    }
}

// Whether one line feed is all that is left.
fn is_end(bytes: &[u8]) -> bool
    ensures { result ≡ is_end bytes.now }
{
    matches!(bytes, [b'\n'])
}

// The vector that a line stands for, if it is well formed.
fn vector_in(line: &[u8]) -> Option<Vec3>
    ensures { vector_given result ≡ pointing_in line.now }
{
    let x = decimal_in(line)?;
    let y = next_in(x.rest)?;
    let z = next_in(y.rest)?;
    if !is_end(z.rest) {
        return None;
    }
    Some(Vec3 {
        x: x.value,
        y: y.value,
        z: z.value,
    })
}

// The vector of whole numbers that a line stands for, its line feed included, or the refusal 13.
pub fn pointing_in(line: &[u8]) -> Result<Vec3, Refusal>
    ensures { answer_of result ≡ pointing_in line.now }
{
    vector_in(line).ok_or(Refusal::Line)
}
