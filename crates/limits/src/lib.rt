// The numbers that document 01 states, each once, and the checks of depths and budgets that several calls share. The rules stand in
// vector/specs/Numbers and region/specs/Budgets.
#![tactic(auto)]

ghost use Rattle.std.specs.Prelude.{◌≡◌, ◌^◌, ◌<◌};
ghost use Rattle.vector.specs.Numbers.{is_depth};
ghost use Rattle.region.specs.Budgets.{is_budget, budget_of};

// K, the length of a unit vector.
pub const K: i64 = 1048576;

pub const MINUS_K: i64 = -K;

// The same without a sign.
pub const UNSIGNED_K: u64 = K as u64;

// The deepest level that is looked up and covered.
pub const MAX_DEPTH: u32 = 12;

// The largest budget, and the one that 0 means.
pub const MAX_BUDGET: u32 = 2048;

const DEFAULT_BUDGET: usize = 16;

// The limits of a region: convexes, halfspaces in a convex, halfspaces in all.
pub const CONVEXES: usize = 64;

pub const IN_CONVEX: usize = 100;

pub const HALFSPACES: usize = 512;

// The bytes of the longest file.
pub const MAX_FILE_BYTES: usize = 10508;

// 5: a depth from 1 to 12.
pub fn is_depth(d: u32) -> bool
    ensures { result ≡ is_depth d }
{
    (1..=MAX_DEPTH).contains(&d)
}

// 6: a budget of at most 2048.
pub fn is_budget(b: u32) -> bool
    ensures { result ≡ is_budget b }
{
    b <= MAX_BUDGET
}

// The budget that is counted with: 0 means DEFAULT_BUDGET.
pub fn budget_of(written: u32) -> usize
    ensures { (result ≡ budget_of written) × (result < 2 ^ 32) }
{
    if written == 0 {
        DEFAULT_BUDGET
    } else {
        written as usize
    }
}
