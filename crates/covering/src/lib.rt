// The cutting of the roots and the two lists of a region: the rules in specs/, the laws in proofs/, and the type of the counts.
#![tactic(auto)]

// How many counts a cover gives.
pub const COVER_COUNTS: usize = 6;

// How many ranges the outer and the inner list have, and the trixels classified. Then, in identifiers at the depth: the descendants of full trixels,
// the partial trixels, and what lies in the gaps that the outer list was joined over.
#[derive(Clone, Copy)]
pub struct Counts {
    pub outer: u64,
    pub inner: u64,
    pub seen: u64,
    pub full: u64,
    pub partial: u64,
    pub swallowed: u64,
}
