// The frames of a region in a single pass: the rules in specs/, the laws in proofs/, and the types that they name. Document 02, F-12.
#![tactic(auto)]

// What becomes of an entry: in no outer range it is skipped, in an inner range it is delivered unchecked, and in an outer range only the point test decides.
#[derive(Clone, Copy)]
pub enum Disposition {
    Skipped,
    Unchecked,
    Held,
    Discarded,
}

// How many counts the call gives.
pub const FRAME_COUNTS: usize = 2;

// How many numbers were delivered, and how many point tests made.
#[derive(Clone, Copy)]
pub struct Frames {
    pub delivered: u64,
    pub tests: u64,
}
