// Unsigned numbers of two words. The squares that classifying compares pass 64 bits. The rules stand in specs/.
#![tactic(auto)]

ghost use Rattle.std.specs.Prelude.{◌≡◌, ◌+◌, ◌-◌, ◌*◌, ◌^◌, ◌<◌, ◌≤◌, ltb};
ghost use Rattle.wide.specs.Value.{value_of};

// The upper word and the lower one. The derived order compares the upper words first.
// Kept: two words and not a u128: the edits carry_lost, column_left_out and upper_word_for_lower are of the words' sums and products.
#[derive(Clone, Copy, PartialEq, Eq, PartialOrd, Ord)]
pub struct Wide {
    pub hi: u64,
    pub lo: u64,
}

// 2^32: a word divided by it gives its upper half, and the remainder is the lower.
const HALF: u64 = 1 << 32;

// A product of two halves of a word. Its own function keeps the proof of `product` linear.
fn mul32(a: u64, b: u64) -> u64
    requires { (a < 2 ^ 32) × (b < 2 ^ 32) }
    ensures { (result ≡ a * b) × (result ≤ (2 ^ 32 - 1) * (2 ^ 32 - 1)) }
{
    a * b
}

// The product of two words, by four products of their halves.
pub fn product(u: u64, v: u64) -> Wide
    ensures { value_of result ≡ u * v }
{
    let u0 = u % HALF;
    let u1 = u / HALF;
    let v0 = v % HALF;
    let v1 = v / HALF;
    let p00 = mul32(u0, v0);
    let p10 = mul32(u1, v0);
    let p01 = mul32(u0, v1);
    let p11 = mul32(u1, v1);
    let t = p10 + p00 / HALF;
    let w = t % HALF + p01;
    let hi = p11 + t / HALF + w / HALF;
    let lo = w % HALF * HALF + p00 % HALF;
    Wide { hi, lo }
}

// A sum, where it fits two words.
pub fn sum(a: Wide, b: Wide) -> Wide
    requires { value_of a + value_of b < 2 ^ 128 }
    ensures { value_of result ≡ value_of a + value_of b }
{
    let (lo, carry) = a.lo.overflowing_add(b.lo);
    Wide {
        hi: a.hi + b.hi + u64::from(carry),
        lo,
    }
}

// A product of a two-word number with a word, where it fits two words.
pub fn times(a: Wide, n: u64) -> Wide
    requires { value_of a * n < 2 ^ 128 }
    ensures { value_of result ≡ value_of a * n }
{
    let low = product(a.lo, n);
    let high = a.hi * n;
    Wide {
        hi: low.hi + high,
        lo: low.lo,
    }
}

// Whether a is less than b.
// Kept: the derived `<` is of words, and this says so of values: the edits equal_is_less and leading_words_only are of it.
pub fn less(a: Wide, b: Wide) -> bool
    ensures { result ≡ ltb (value_of a) (value_of b) }
{
    a < b
}
