// The integer square root in code: a guess, tested; two steps from it, each tested; the library for the rest. The rule is `root` of vector/specs/Numbers.
#![tactic(auto)]

ghost use Rattle.std.specs.Prelude.{◌≡◌, ◌&&◌, ◌+◌, ◌-◌, ◌*◌, ◌/◌, ◌^◌, ◌≤◌, ◌<◌, leb, ltb};
ghost use Rattle.vector.specs.Numbers.{root};

use limits::UNSIGNED_K as K;

// A number between (2K)² and (3K)².
const BETWEEN_SQUARES: u64 = 5 * K * K;

// The square root of s, rounded down: a guess, or Newton's step from it, or the step after, where that is the root; else the library's.
// Kept: a test for each step and no loop, as the edits isqrt_untested, isqrt_step_untested and isqrt_second_step_untested are each of one of them.
pub fn isqrt(s: u64) -> u64
    requires { s < 2 ^ 46 }
    ensures value { result ≡ root s }
    ensures upper_bound { result < 2 ^ 23 }
{
    let n = guess(s);
    if is_root(s, n) {
        return n;
    }
    let m = newton(s, n);
    if is_root(s, m) {
        return m;
    }
    let k = newton(s, m);
    if is_root(s, k) {
        return k;
    }
    s.isqrt()
}

// Newton's step from n toward the root of s.
pub fn newton(s: u64, n: u64) -> u64
    requires { (s < 2 ^ 46) × (0 < n) × (n < 2 ^ 46) }
    ensures { result ≡ (n + s / n) / 2 }
{
    (n + s / n) / 2
}

// A number near the root of s, where s is the square length of the sum of two or three near vectors.
fn guess(s: u64) -> u64
    ensures { (2 ^ 19 ≤ result) × (result ≤ 2 ^ 22) }
{
    if s < BETWEEN_SQUARES {
        near_two(s)
    } else {
        near::<3>(s)
    }
}

// The root for most s a little below (2K)².
pub fn near_two(s: u64) -> u64
    ensures { (2 ^ 19 ≤ result) × (result ≤ 2 ^ 21) }
{
    near::<2>(s)
}

// The root for most s a little below (N K)², N being 2 or 3: with e = (N K)² − s and f = e / 2 N K it is about N K − (e + f²) / 2 N K.
fn near<const N: u64>(s: u64) -> u64
    requires { (2 ≤ N) × (N ≤ 3) }
    ensures { (2 ^ 19 ≤ result) × (result ≤ N * 2 ^ 20) }
{
    let length = N * K;
    let twice = 2 * length;
    let e = (length * length).saturating_sub(s);
    let f = e / twice;
    length - (e + f * f).div_ceil(twice)
}

// Whether r is the root of s: r² ≤ s < (r + 1)², where (r + 1)² is r² + 2r + 1.
pub fn is_root(s: u64, r: u64) -> bool
    requires { r ≤ 2 ^ 28 }
    ensures { result ≡ (leb (r * r) s && ltb s ((r + 1) * (r + 1))) }
{
    r * r <= s && s - r * r <= 2 * r
}
