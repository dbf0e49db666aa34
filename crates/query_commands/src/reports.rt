// The commands of query about reports of a mount: double and single, with the bits of the floats. Each is answered from the words
// behind its name.
ghost use Rattle.std.specs.Prelude.{◌≡◌, ◌%◌, ◌^◌};
ghost use Rattle.std.specs.Float.{binary32, binary64};
ghost use Rattle.std.specs.Float.Ieee.{of_bits};

use command_words::Words;
use mount::{Double, Report, Single};
use print::{Fault, Output};

// The bits of infinity in double precision, and the bit of the sign. What is above infinity without its sign is a NaN.
const DOUBLE_INFINITY: u64 = 2047 << 52;

const DOUBLE_SIGN: u64 = 1 << 63;

// As above, in single precision.
const SINGLE_INFINITY: u32 = 255 << 23;

const SINGLE_SIGN: u32 = 1 << 31;

// How many patterns single precision has.
const SINGLES: u64 = 1 << 32;

// double X Y Z DEPTH
pub fn double(words: Words<'_>, out: &mut Output) -> Result<(), Fault> {
    report(
        words,
        out,
        16,
        |x, y, z| Report::Double(Double {
            x: double_of(x),
            y: double_of(y),
            z: double_of(z),
        }),
    )
}

// single X Y Z DEPTH
pub fn single(words: Words<'_>, out: &mut Output) -> Result<(), Fault> {
    report(
        words,
        out,
        8,
        |x, y, z| Report::Single(Single {
            x: single_of(x),
            y: single_of(y),
            z: single_of(z),
        }),
    )
}

// The bits of three floats of `digits` digits each, and a depth, to the line's end. `made` makes a report of the bits.
fn report<F: FnOnce(u64, u64, u64) -> Report + Drop>(
    mut words: Words<'_>,
    out: &mut Output,
    digits: usize,
    made: F,
) -> Result<(), Fault>
    requires { F.IsAlwaysCallable made }
{
    let x = words.bits(digits)?;
    let y = words.bits(digits)?;
    let z = words.bits(digits)?;
    let depth = words.natural()?;
    words.end()?;
    out.located(htm::locate_report(made(x, y, z), depth)?)?;
    Ok(())
}

// The f64 of 64 bits. All patterns of a NaN are one NaN.
// Kept: one function for each type of float: a trait of both would have the infinity, the sign, `from_bits` and the format as members, given twice as here.
fn double_of(bits: u64) -> f64
    ensures { result ≡ of_bits binary64 bits }
{
    if DOUBLE_INFINITY < bits % DOUBLE_SIGN {
        return f64::NAN;
    }
    f64::from_bits(bits)
}

// The f32 of the lower 32 bits.
fn single_of(bits: u64) -> f32
    ensures { result ≡ of_bits binary32 (bits % 2 ^ 32) }
{
    let pattern = (bits % SINGLES) as u32;
    if SINGLE_INFINITY < pattern % SINGLE_SIGN {
        return f32::NAN;
    }
    f32::from_bits(pattern)
}
