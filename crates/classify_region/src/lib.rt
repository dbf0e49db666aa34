// The class of a trixel for a region: nested loops over convexes and halfspaces, which were prepared to two lists. The rule is `region_class` of
// classify/specs/Classes, the lists stand in classify_prepared/specs/PreparedLists.
#![tactic(auto)]

ghost use Rattle.std.specs.Prelude.{◌≡◌};
ghost use Rattle.mesh_trixels.specs.Corners.{SmallTrixel};
ghost use Rattle.classify.specs.Classes.{is_outside, is_full};
ghost use Rattle.classify_prepared.specs.Measures.{RaysOf};
ghost use Rattle.classify_cap.specs.Middle.{IsBoundingCap};
ghost use Rattle.classify_prepared.specs.PreparedLists.{Ready, Classed, ReadyConvex, ClassedConvex};

use classify::Class;
use classify_cap::BoundingCap;
use classify_prepared::{PreparedHalfspace, TrixelRays};
use mesh::Trixel;

// Whether a class is outside.
// Kept: a match, as the edit scan_outside_goes_on is of one of its arms; so in `is_full`, whose edit is scan_full_not_settled.
fn is_outside(c: Class) -> bool
    ensures { result ≡ is_outside c }
{
    match c {
        Class::Outside => true,
        Class::Partial | Class::Full => false,
    }
}

// Whether a class is full.
fn is_full(c: Class) -> bool
    ensures { result ≡ is_full c }
{
    match c {
        Class::Outside | Class::Partial => false,
        Class::Full => true,
    }
}

// The class of a trixel for the region whose halfspaces and ends of convexes these are. The scan of a convex ends at its first halfspace that leaves the
// trixel outside, that of the region at its first full convex.
pub fn classify_convexes(
    t: &Trixel,
    s: TrixelRays,
    m: BoundingCap,
    halfspaces: &[PreparedHalfspace],
    ends: &[usize],
) -> Class
    requires rays_of { RaysOf t.now s × IsBoundingCap t.now m × SmallTrixel t.now }
    requires ready { Ready halfspaces.now ends.now }
    ensures { Classed t.now halfspaces.now ends.now result }
{
    let mut settled = Class::Outside;
    let mut start = 0;
    'convexes: for &end in ends {
        let mut class = Class::Full;
        'halfspaces: for q in &halfspaces[start..end] {
            class = class.min(classify_halfspace::classify_one(t, s, m, *q));
            if is_outside(class) {
                break 'halfspaces;
            }
        }
        settled = settled.max(class);
        if is_full(settled) {
            break 'convexes;
        }
        start = end;
    }
    settled
}

// The class for a convex, by the rays first: where a region is one convex of few halfspaces that is quicker than a bounding cap for every trixel.
// Kept: a loop as in `classify_convexes`; tried as one function over a closure, and what its call asks, of a trixel that is lent to it, did not close.
pub fn classify_few(t: &Trixel, s: TrixelRays, halfspaces: &[PreparedHalfspace]) -> Class
    requires rays_of { RaysOf t.now s × SmallTrixel t.now }
    requires ready { ReadyConvex halfspaces.now }
    ensures { ClassedConvex t.now halfspaces.now result }
{
    let mut class = Class::Full;
    for q in halfspaces {
        class = class.min(classify_halfspace::classify_by_rays(t, s, *q));
        if is_outside(class) {
            return class;
        }
    }
    class
}
