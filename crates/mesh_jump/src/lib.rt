// The jump in code: from the corners of an entry of the table the digits of a pointing by three numbers, doubled from level to level and made less by the bends
// of the edges, as far as a margin makes them sure; and the corners along sure digits. What the functions give stands in specs/Jumps; why the digits are those
// of the rule, in proofs/JumpLaws and jump/proofs/JumpLevel.
#![tactic(auto)]

ghost use Rattle.std.specs.Prelude.{◌≡◌, true, false, Some, ◌+◌, ◌*◌, ◌^◌, ◌≤◌, ◌<◌, eqb, pos, ◌+ℤ◌, ◌-ℤ◌, ◌*ℤ◌, ◌≤ℤ◌};
ghost use Rattle.algebra.proofs.Sizes.{Upto};
ghost use Rattle.jump.proofs.Jump.{det};
ghost use Rattle.jump.proofs.JumpInvariant.{pushed};
ghost use Rattle.jump.proofs.JumpConstants.{δ};
ghost use Rattle.jump.proofs.UnitLaws.{three};
ghost use Rattle.vector.proofs.Sizes.{AtMost, Small};
ghost use Rattle.mesh.specs.Identifiers.{corners_of};
ghost use Rattle.mesh_trixels.specs.Corners.{bare, SmallCorners};
ghost use Rattle.mesh_bends.specs.Bends.{SmallBends, bends_below};
ghost use Rattle.mesh_jump.specs.Jumps.{Above, Below, turned_of, less_of, at_corner, InMiddle, in_middle, begin_of, with_digit, Within, NotNegative, Started, unbent, Given, Sure, Entry, along, Jumped, Reached};

use mesh::Corners;
use mesh_bends::Bends;
use vector::Vec3;

// Three numbers that follow a pointing from a trixel to its children, and the margin beyond which their differences give the child. At the start each is
// the volume of two corners and the pointing, pushed outward.
// Kept: `begin` makes numbers of any sign, which `can_start` tests then, so `Within` and `NotNegative` are clauses and no invariant of this type.
#[derive(Clone, Copy)]
pub struct Numbers {
    pub d0: i64,
    pub d1: i64,
    pub d2: i64,
    pub margin: i64,
}

// How many digits are sure, and the identifier that ends with them.
#[derive(Clone, Copy)]
pub struct SureDigits {
    pub count: u32,
    pub id: u64,
}

impl SureDigits {
    // With one digit more.
    fn with(self, digit: u64) -> SureDigits
        requires count_bound { self.count < 9 }
        requires id_bound { (self.id < 2 ^ 58) × (digit < 4) }
        ensures { result ≡ with_digit self digit }
    {
        SureDigits {
            count: self.count + 1,
            id: 4 * self.id + digit,
        }
    }
}

// The sure digits of the bent levels, and the numbers that are reached.
#[derive(Clone, Copy)]
pub struct BentDigits {
    pub sure: SureDigits,
    pub numbers: Numbers,
}

// How far a pointing is pushed outward in each component: half of what rounding toward zero may take from corners nine levels below.
const PUSH: i64 = 5;

// The margin of the first level, 24 · 2^40. It doubles from level to level, as the numbers do.
const FIRST_MARGIN: i64 = 26388279066624;

const BEND_UNIT: u64 = mesh_bends::BEND_UNIT as u64;

// So many levels from the table on are bent: further down the edges are short enough.
const BENT_LEVELS: u32 = 4;

// The bends where nothing is bent.
const NO_BENDS: Bends = Bends {
    a0: 0,
    a1: 0,
    a2: 0,
};

// How much a push outward in S0's octant adds along n.
fn push_along(n: Vec3) -> i64
    requires { AtMost (2 ^ 41) n }
    ensures { (result ≡ δ *ℤ (n.x +ℤ n.y -ℤ n.z)) × Upto (15 * 2 ^ 41) result }
{
    PUSH * (n.x + n.y - n.z)
}

// (a × b)·c, with c pushed outward in S0's octant.
fn volume(a: Vec3, b: Vec3, c: Vec3) -> i64
    requires small { Small a × Small b }
    requires small_2 { Small c }
    ensures { (result ≡ det (three a) (three b) (pushed δ (three c))) × Upto (3 * 2 ^ 61 + 15 * 2 ^ 41) result }
{
    let n = vector_products::cross(a, b);
    vector_products::dot(c, n) + push_along(n)
}

// The numbers of p at the corners c, with the first margin.
fn begin(p: Vec3, c: Corners) -> Numbers
    requires small { Small p }
    requires small_corners { SmallCorners c }
    ensures { result ≡ begin_of p c }
{
    Numbers {
        d0: volume(c.v1, c.v2, p),
        d1: volume(c.v2, c.v0, p),
        d2: volume(c.v0, c.v1, p),
        margin: FIRST_MARGIN,
    }
}

// Whether no number is below 0.
fn not_negative(n: Numbers) -> bool
    ensures { result ≡ true → (pos 0 ≤ℤ n.d0) × (pos 0 ≤ℤ n.d1) × (pos 0 ≤ℤ n.d2) }
{
    0 <= n.d0 && 0 <= n.d1 && 0 <= n.d2
}

// Whether p can be followed by the numbers n.
fn can_start(p: Vec3, n: Numbers) -> bool
    ensures { result ≡ true → Started p n }
{
    vector_products::is_vector(p) && not_negative(n)
}

// Whether the place that the numbers follow is beyond the cut at the first corner, by more than the margin.
fn is_above(n: Numbers) -> bool
    requires { Within n }
    ensures { result ≡ true → Above n }
{
    n.margin < n.d0 - n.d1 - n.d2
}

// Whether it is on the near side of that cut, by more than the margin.
fn is_below(n: Numbers) -> bool
    requires { Within n }
    ensures { result ≡ true → Below n }
{
    n.margin < n.d1 + n.d2 - n.d0
}

// The numbers from the next corner on.
fn turned(n: Numbers) -> Numbers
    requires within { Within n }
    requires not_negative { NotNegative n }
    ensures { (result ≡ turned_of n) × Within result × NotNegative result }
{
    Numbers {
        d0: n.d1,
        d1: n.d2,
        d2: n.d0,
        margin: n.margin,
    }
}

// d, less the part a of BEND_UNIT of it. Without BENT a is 0, and d is given back with no quotient.
fn less<const BENT: bool>(d: i64, a: i64) -> i64
    requires pos_bound { (pos 0 ≤ℤ d) × Upto (3 * 2 ^ 61) d }
    requires upto { Upto (2 ^ 20) a }
    requires flat { BENT ≡ false → a ≡ pos 0 }
    ensures { (result ≡ less_of d a) × Upto (3 * 2 ^ 61 + 2 ^ 59) result }
{
    if BENT {
        d - (d as u64 / BEND_UNIT) as i64 * a
    } else {
        d
    }
}

// Twice d, less that part of it.
fn twice_less<const BENT: bool>(d: i64, a: i64) -> i64
    requires pos_bound { (pos 0 ≤ℤ d) × Upto (2 ^ 61) d }
    requires upto { Upto (2 ^ 20) a }
    requires flat { BENT ≡ false → a ≡ pos 0 }
    ensures { (result ≡ less_of (pos 2 *ℤ d) a) × Upto (3 * 2 ^ 61 + 2 ^ 59) result }
{
    less::<BENT>(2 * d, a)
}

// What x and y have beyond z, less that part of it.
fn excess_less<const BENT: bool>(x: i64, y: i64, z: i64, a: i64) -> i64
    requires upto { Upto (2 ^ 61) x × Upto (2 ^ 61) y × Upto (2 ^ 61) z }
    requires pos_bound { pos 0 ≤ℤ (x +ℤ y -ℤ z) }
    requires upto_2 { Upto (2 ^ 20) a }
    requires flat { BENT ≡ false → a ≡ pos 0 }
    ensures { (result ≡ less_of (x +ℤ y -ℤ z) a) × Upto (3 * 2 ^ 61 + 2 ^ 59) result }
{
    less::<BENT>(x + y - z, a)
}

// The numbers of the child at the first corner; b and c are the bends of the edges to the second and the third.
fn at_corner<const BENT: bool>(n: Numbers, b: i64, c: i64) -> Numbers
    requires within { Within n }
    requires not_negative { NotNegative n }
    requires upto { Upto (2 ^ 20) b × Upto (2 ^ 20) c }
    requires flat { BENT ≡ false → (b ≡ pos 0) × (c ≡ pos 0) }
    ensures { result ≡ at_corner n b c }
{
    Numbers {
        d0: n.d0 - n.d1 - n.d2,
        d1: twice_less::<BENT>(n.d1, b),
        d2: twice_less::<BENT>(n.d2, c),
        margin: 2 * n.margin,
    }
}

// Those of the child in the middle, with the bends a.
fn in_middle<const BENT: bool>(n: Numbers, a: Bends) -> Numbers
    requires within { Within n }
    requires in_middle { InMiddle n }
    requires small_bends { SmallBends a }
    requires flat { BENT ≡ false → a ≡ unbent }
    ensures { result ≡ in_middle n a }
{
    Numbers {
        d0: excess_less::<BENT>(n.d1, n.d2, n.d0, a.a0),
        d1: excess_less::<BENT>(n.d0, n.d2, n.d1, a.a1),
        d2: excess_less::<BENT>(n.d0, n.d1, n.d2, a.a2),
        margin: 2 * n.margin,
    }
}

// The child that the numbers give; None where one of them is within the margin.
// Kept: a test after the other; tried with an Option of bool for both sides of a cut and `?`, and a lookup takes a ninth more instructions.
fn sure_digit(n: Numbers) -> Option<u64>
    requires within { Within n }
    requires not_negative { NotNegative n }
    ensures { Given n result }
{
    if is_above(n) {
        return Some(0);
    }
    if !is_below(n) {
        return None;
    }
    let next = turned(n);
    if is_above(next) {
        return Some(1);
    }
    if !is_below(next) {
        return None;
    }
    let last = turned(next);
    if is_above(last) {
        return Some(2);
    }
    if !is_below(last) {
        return None;
    }
    Some(3)
}

// The numbers of the child that they give, with the bends a. Without BENT nothing is bent.
fn child_numbers<const BENT: bool>(n: Numbers, a: Bends, digit: u64) -> Numbers
    requires within { Within n }
    requires not_negative { NotNegative n }
    requires small_bends { SmallBends a }
    requires flat { BENT ≡ false → a ≡ unbent }
    requires given { Given n (Some digit) }
    ensures { Sure n a digit result }
{
    match digit {
        0 => at_corner::<BENT>(n, a.a2, a.a1),
        1 => at_corner::<BENT>(turned(n), a.a0, a.a2),
        2 => at_corner::<BENT>(turned(turned(n)), a.a1, a.a0),
        _ => in_middle::<BENT>(n, a),
    }
}

// The digits of p below the entry of the table with the corners c and the identifier id, as many of n as are sure, but at most those of the bent levels.
fn bent_digits(p: Vec3, c: Corners, id: u64, n: u32) -> BentDigits
    requires small { Small p }
    requires small_corners { SmallCorners c }
    requires entry { Entry c }
    requires id_bound { (id < 2 ^ 40) × (n ≤ 9) }
    ensures { Reached p c id n result }
{
    let mut sure = SureDigits { count: 0, id };
    let mut numbers = begin(p, c);
    if !can_start(p, numbers) {
        return BentDigits { sure, numbers };
    }
    let mut bends = mesh_bends::bends_of(c);
    let limit = n.min(BENT_LEVELS);
    for k in 0..limit {
        let Some(digit) = sure_digit(numbers) else {
            return BentDigits { sure, numbers };
        };
        numbers = child_numbers::<true>(numbers, bends, digit);
        bends = mesh_bends::bends_below(bends, digit, k == 0);
        sure = sure.with(digit);
    }
    BentDigits { sure, numbers }
}

// The digits of p below the entry of the table with the corners c and the identifier id, as many of n as are sure.
// Kept: c and id are two parameters, as no trixel has both: c are the corners of S0's entry, id is of the root's trixel that it is turned to.
pub fn jump(p: Vec3, c: Corners, id: u64, n: u32) -> SureDigits
    requires small { Small p }
    requires small_corners { SmallCorners c }
    requires entry { Entry c }
    requires id_bound { (id < 2 ^ 40) × (n ≤ 9) }
    ensures { Jumped p c id n result }
{
    let bent = bent_digits(p, c, id, n);
    let mut sure = bent.sure;
    if sure.count < BENT_LEVELS {
        return sure;
    }
    let mut numbers = bent.numbers;
    for _level in BENT_LEVELS..n {
        let Some(digit) = sure_digit(numbers) else {
            return sure;
        };
        numbers = child_numbers::<false>(numbers, NO_BENDS, digit);
        sure = sure.with(digit);
    }
    sure
}

// The corners n levels below c, by the last n digits of an identifier.
pub fn corners_along(c: Corners, id: u64, n: u32) -> Corners
    requires { SmallCorners c }
    ensures { (result ≡ corners_of (along n id (bare c))) × SmallCorners result }
{
    if n == 0 {
        return c;
    }
    mesh_trixels::child_corners(corners_along(c, id / 4, n - 1), id % 4)
}
