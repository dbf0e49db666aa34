// Anchors: what they are used for stands in settling.rt.
use vector::Vec3;

// An anchor beside which halfspaces are settled: a middle b, E there as `reach`, and how far beyond it a halfspace must be.
// Kept: that its numbers are in range is a clause, `IsAnchor`, as `by_active` of proofs/ActiveRegionLaws speaks of any anchor, and `find_active` fills what
// any numbers stood in.
#[derive(Clone, Copy)]
pub struct Anchor {
    pub b: Vec3,
    pub reach: i64,
    pub margin: i64,
}
