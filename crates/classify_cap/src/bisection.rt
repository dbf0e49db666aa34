// Bisection of numbers: the library has one of slices only (`partition_point`).
ghost use Rattle.std.specs.Prelude.{ℕ, true, false, ◌≢◌, ◌+◌, ◌^◌, ◌≤◌, ◌<◌};

// A number from `low` on and below `high` at which f holds, and after which it does not. The two ends are not asked: f is taken to hold at `low`, and not
// at `high`.
pub fn bisect<F: Fn(u64) -> bool>(mut low: u64, mut high: u64, f: F) -> u64
    requires order { (low < high) × (high ≤ 2 ^ 32) }
    requires callable { (n : ℕ) → low < n → n < high → F.pre f n }
    ensures within { (low ≤ result) × (result < high) }
    ensures holds { result ≢ low → F.post f result true }
    ensures ends { result + 1 ≢ high → F.post f (result + 1) false }
{
    // Kept: no index is counted: the library has a bisection of slices only (`partition_point`).
    while low + 1 < high {
        let middle = (low + high) / 2;
        if f(middle) {
            low = middle;
        } else {
            high = middle;
        }
    }
    low
}
