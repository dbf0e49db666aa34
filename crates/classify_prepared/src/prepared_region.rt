// Prepared halfspaces of a region. What they are stands in specs/PreparedLists.
ghost use Rattle.std.specs.Prelude.{◌≡◌, ◌≤◌, ◌↔◌, IsTrue, take};

use crate::PreparedHalfspace;
use limits::{CONVEXES, HALFSPACES};

// The halfspaces of a region, prepared, convex after convex, and for each convex the number of halfspaces before its end. There is room for H halfspaces
// in C convexes; places behind the counts are not used.
// Kept: that the counts are within the arrays is a clause where it is needed or given (`HasRoom`), since `prepare` and `find_active` take lists with any counts.
// Kept: that some region was prepared to the lists is a clause, `ReadyRegion`: a ghost field tells only that there is one, and callees ask for its halfspaces.
// Kept: arrays with counts, and no Vec: nothing is allocated (docs/C.md), and each level of the cutting that finds halfspaces has its lists on the stack.
#[derive(Clone, Copy)]
pub struct HalfspaceLists<const H: usize, const C: usize> {
    pub halfspaces: [PreparedHalfspace; H],
    pub ends: [usize; C],
    pub count: usize,
    pub convexes: usize,
}

impl<const H: usize, const C: usize> HalfspaceLists<H, C> {
    // The prepared halfspaces: all that there are where the count is larger.
    pub fn halfspaces(&self) -> &[PreparedHalfspace]
        ensures { result.now ≡ take self.now.count self.now.halfspaces }
    {
        &self.halfspaces[..self.count.min(H)]
    }

    // The ends of the convexes: all that there are where their number is larger.
    pub fn ends(&self) -> &[usize]
        ensures { result.now ≡ take self.now.convexes self.now.ends }
    {
        &self.ends[..self.convexes.min(C)]
    }

    // Whether there is no halfspace.
    pub fn is_empty(&self) -> bool
        ensures { IsTrue result ↔ (self.now.count ≡ 0) }
    {
        self.count == 0
    }

    // Takes all halfspaces out. What stood in their places stays there.
    pub fn clear(&mut self)
        ensures counts { (self.new.count ≡ 0) × (self.new.convexes ≡ 0) }
        ensures places { (self.new.halfspaces ≡ self.old.halfspaces) × (self.new.ends ≡ self.old.ends) }
    {
        self.count = 0;
        self.convexes = 0;
    }
}

// So many ends a region has room for: those of every accepted file, and one more, since the functions that take a region answer for 65 convexes too.
pub const ENDS: usize = CONVEXES + 1;

// Room for every accepted file.
pub type PreparedRegion = HalfspaceLists<HALFSPACES, ENDS>;
