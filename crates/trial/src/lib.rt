// A trial of two settings: the rules in specs/, worked examples in proofs/, and the types that they name. Document 02, F-13.
#![tactic(auto)]

// How many numbers a trial gives.
pub const TRIAL_COUNTS: usize = 11;

// A depth and a budget that stand in for those of a file's header.
#[derive(Clone, Copy)]
pub struct Setting {
    pub depth: u32,
    pub budget: u32,
}

// The result of one setting: the frames delivered unchecked, tested and held, and tested and discarded, and how many ranges the outer and the inner list have.
#[derive(Clone, Copy)]
pub struct SettingResult {
    pub unchecked: u64,
    pub held: u64,
    pub discarded: u64,
    pub outer: u64,
    pub inner: u64,
}

// The setting chosen, by its number in a list.
#[derive(Clone, Copy)]
pub enum Choice {
    First = 1,
    Second,
}

// The results of both settings, and the choice.
#[derive(Clone, Copy)]
pub struct Trial {
    pub first: SettingResult,
    pub second: SettingResult,
    pub choice: Choice,
}
