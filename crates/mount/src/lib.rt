// A mount's report: three floats, in single or in double precision. Each is taken times 2^20 and truncated toward zero. The rules stand in specs/Values and
// specs/Reports; the code uses a float's bits, specs/Floats.
#![tactic(auto)]

ghost use Rattle.std.specs.Prelude.{◌≡◌, ◌^◌, ◌≤◌, ◌<◌};
ghost use Rattle.answer.specs.Calls.{answer_of};
ghost use Rattle.vector.specs.Numbers.{signed};
ghost use Rattle.mount.specs.Floats as floats;
ghost use Rattle.mount.specs.Values.{component_of};
ghost use Rattle.mount.specs.Widths.{Usual};
ghost use Rattle.mount.specs.Reports as reports;
ghost use Rattle.mount.specs.Reports.{three_of};

use answer::Refusal;
use vector::Vec3;

// ---- a component

// A component is multiplied by 2 to the power of this.
const SCALE_BITS: u64 = 20;

// The width of a float: how many of its bits are the exponent's, and how many the fraction's.
#[derive(Clone, Copy)]
pub struct Width {
    pub exponent: u64,
    pub fraction: u64,
}

fn with_sign(negative: bool, n: u64) -> i64
    requires { n ≤ 2 ^ 20 }
    ensures { result ≡ signed negative n }
{
    let z = n as i64;
    if negative { -z } else { z }
}

// The component of the float with these bits, at any width. Without the sign they are at most those of 1 where the float is at most 1 in size; an
// infinity's and a NaN's are above. Below 2^-20 nothing is left; from there on the significand loses its last digits.
fn component(bits: u64, w: Width) -> Result<i64, Refusal>
    requires { Usual w }
    ensures { answer_of result ≡ floats.component w bits }
{
    let f = w.fraction;
    let unit: u64 = 1 << f;
    let bias = (1 << (w.exponent - 1)) - 1;
    let sign = 1 << (w.exponent + f);
    let size = bits % sign;
    if bias * unit < size {
        return Err(Refusal::Float);
    }
    let field = size / unit;
    if field + SCALE_BITS < bias {
        return Ok(0);
    }
    let n = (unit + size % unit) >> (bias + f - SCALE_BITS - field);
    Ok(with_sign(sign <= bits, n))
}

// The width of an f32.
const SINGLE: Width = Width {
    exponent: 8,
    fraction: 23,
};

// The width of an f64.
const DOUBLE: Width = Width {
    exponent: 11,
    fraction: 52,
};

// The component of an f32. Every NaN is refused, whatever its bits.
// Kept: one function for each type of float, as a trait with its bits, its NaNs and its width would say the same in two impls, and the laws besides.
fn of_single(s: f32) -> Result<i64, Refusal>
    ensures { answer_of result ≡ component_of s }
{
    if s.is_nan() {
        return Err(Refusal::Float);
    }
    component(u64::from(s.to_bits()), SINGLE)
}

// The component of an f64.
fn of_double(d: f64) -> Result<i64, Refusal>
    ensures { answer_of result ≡ component_of d }
{
    if d.is_nan() {
        return Err(Refusal::Float);
    }
    component(d.to_bits(), DOUBLE)
}

// ---- a report

// Three floats of a mount, kept as they came.
#[derive(Clone, Copy)]
pub struct Floats<F> {
    pub x: F,
    pub y: F,
    pub z: F,
}

// Those of an older mount.
pub type Single = Floats<f32>;

// Those of a newer mount.
pub type Double = Floats<f64>;

#[derive(Clone, Copy)]
pub enum Report {
    Single(Single),
    Double(Double),
}

// The pointing of three components, or the first refusal among them.
fn three_of(
    x: Result<i64, Refusal>,
    y: Result<i64, Refusal>,
    z: Result<i64, Refusal>,
) -> Result<Vec3, Refusal>
    ensures { answer_of result ≡ three_of (answer_of x) (answer_of y) (answer_of z) }
{
    let x = x?;
    let y = y?;
    let z = z?;
    Ok(Vec3 { x, y, z })
}

// The pointing of a report; refusal 12.
pub fn pointing(report: Report) -> Result<Vec3, Refusal>
    ensures { answer_of result ≡ reports.pointing report }
{
    match report {
        Report::Single(s) => three_of(of_single(s.x), of_single(s.y), of_single(s.z)),
        Report::Double(d) => three_of(of_double(d.x), of_double(d.y), of_double(d.z)),
    }
}
