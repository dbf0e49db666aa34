// The active halfspaces of a region beside a trixel, in lists of their own, and the class of a trixel by them. specs/Active defines them.
#![tactic(auto)]

ghost use Rattle.std.specs.Prelude.{◌≡◌, true, ◌≤◌, ◌<◌, length, IfOk};
ghost use Rattle.mesh_trixels.specs.Corners.{SmallTrixel};
ghost use Rattle.classify_prepared.specs.Measures.{RaysOf};
ghost use Rattle.classify_cap.specs.Middle.{IsBoundingCap};
ghost use Rattle.classify_prepared.specs.PreparedLists.{Ready, ReadyConvex};
ghost use Rattle.classify_prepared.specs.PreparedRegions.{halfspaces_in, ends_in, HasRoom, ReadyRegion, ClassedBy};
ghost use Rattle.classify_active.specs.Anchor.{IsAnchor};
ghost use Rattle.classify_active.specs.Active.{ActivePrepared, ActiveListsIn, ByActive, ActiveConvex, AddedConvex, active_stored_count, active_stored_list};

use crate::anchors::Anchor;
use classify::Class;
use classify_cap::BoundingCap;
use classify_prepared::prepared_region::{HalfspaceLists, PreparedRegion};
use classify_prepared::{PreparedHalfspace, TrixelRays};
use mesh::Trixel;
use vector::Vec3;

pub mod anchors;
pub mod settling;

// So many active halfspaces are stored at most.
const ACTIVE_CAPACITY: usize = 32;

// The halfspaces that are active beside an anchor; none where none are known.
// Kept: no Option of the lists, as a level has them on its stack and fills them there, and `ActiveListsIn` of specs/Active speaks of their count.
// Kept: `ActiveListsIn` is a clause, as it is of these lists and of the region beside them: the region is lent on to the last level, and each level that finds
// lists lends those of its own; a struct of both would still ask `ReadyRegion` of its region.
#[derive(Clone, Copy)]
pub struct ActiveHalfspaces {
    pub lists: HalfspaceLists<ACTIVE_CAPACITY, ACTIVE_CAPACITY>,
    pub anchor: Anchor,
}

// The active halfspaces of a convex are more than are stored, or there are none: it is full.
#[derive(Clone, Copy)]
pub struct NotStored;

// A halfspace of class c is stored as number w where it is active, that is partial. The result is how many are stored then.
// Kept: a buffer and a count, as the list is filled in place and its rest keeps what it has, of which `active_stored_list` of specs/Active speaks.
fn store_active(active: &mut [PreparedHalfspace], w: usize, q: PreparedHalfspace, c: Class) -> usize
    requires { w < length active.old }
    ensures value { result ≡ active_stored_count c w }
    ensures active_after { active.new ≡ active_stored_list c w q active.old }
{
    match c {
        Class::Outside => w,
        Class::Full => w,
        Class::Partial => {
            active[w] = q;
            w + 1
        }
    }
}

// The active halfspaces of a convex, stored from number w on; `most` are the most that are stored. The result is how many are stored then, or None where
// the convex is outside.
// Kept: `ReadyConvex` is a clause, as a convex is a part of a lent list, and no struct that could have a ghost field.
fn active_in_convex(
    r: Anchor,
    convex: &[PreparedHalfspace],
    active: &mut [PreparedHalfspace],
    w: usize,
    most: usize,
) -> Result<Option<usize>, NotStored>
    requires anchor { IsAnchor r }
    requires few { (w ≤ 32) × (length active.old ≡ 32) × (most ≤ 32) }
    requires ready { ReadyConvex convex.now }
    ensures { ActiveConvex r convex.now w active.old active.new result }
{
    let mut m = w;
    for q in convex {
        if most <= m {
            return Err(NotStored);
        }
        let c = crate::settling::settled_class(*q, r);
        if c == Class::Outside {
            return Ok(None);
        }
        m = store_active(active, m, *q, c);
    }
    Ok(Some(m))
}

// The active halfspaces of a convex and its end are stored, or nothing where it is outside.
fn add_convex(
    r: Anchor,
    convex: &[PreparedHalfspace],
    active: &mut HalfspaceLists<ACTIVE_CAPACITY, ACTIVE_CAPACITY>,
    most: usize,
) -> Result<(), NotStored>
    requires anchor { IsAnchor r }
    requires few { HasRoom active.old × (most ≤ 32) }
    requires ready { ReadyConvex convex.now × ReadyRegion active.old }
    ensures { IfOk result (λ _. HasRoom active.new × AddedConvex r convex.now active.old active.new) }
{
    let w = active.count;
    let Some(m) = active_in_convex(r, convex, &mut active.halfspaces, w, most)? else {
        return Ok(());
    };
    if m <= w {
        return Err(NotStored);
    }
    active.ends[active.convexes] = m;
    active.convexes += 1;
    active.count = m;
    Ok(())
}

// The active halfspaces of a region beside r, where each convex has some or is outside, and they are at most `most`.
fn active_in_region(
    r: Anchor,
    halfspaces: &[PreparedHalfspace],
    ends: &[usize],
    active: &mut HalfspaceLists<ACTIVE_CAPACITY, ACTIVE_CAPACITY>,
    most: usize,
) -> Result<(), NotStored>
    requires anchor { IsAnchor r }
    requires none { (active.old.count ≡ 0) × (active.old.convexes ≡ 0) × (most ≤ 32) }
    requires ready { Ready halfspaces.now ends.now }
    ensures { IfOk result (λ _. HasRoom active.new × ActivePrepared halfspaces.now ends.now active.new r) }
{
    let mut start = 0;
    for &end in ends {
        add_convex(r, &halfspaces[start..end], active, most)?;
        start = end;
    }
    Ok(())
}

// How many active halfspaces of n are stored at most: a third, and at most 32. Where more are active it is better to look again below.
fn active_limit(n: usize) -> usize
    ensures { result ≤ 32 }
{
    (n / 3).min(ACTIVE_CAPACITY)
}

impl Default for ActiveHalfspaces {
    ghost is_default = { λ a. ((a.lists.count ≡ 0) × (a.lists.convexes ≡ 0)) × IsAnchor a.anchor };

    // No halfspaces are known to be active.
    fn default() -> Self {
        ActiveHalfspaces {
            lists: HalfspaceLists {
                halfspaces: [classify_prepared::NO_HALFSPACE; ACTIVE_CAPACITY],
                ends: [0; ACTIVE_CAPACITY],
                count: 0,
                convexes: 0,
            },
            anchor: Anchor {
                b: Vec3 { x: 0, y: 0, z: 0 },
                reach: 0,
                margin: 0,
            },
        }
    }
}

// The active halfspaces beside the middle of t. They are stored where they are used, since a level of the cutting keeps them on the stack.
pub fn find_active(
    t: &Trixel,
    s: TrixelRays,
    region: &PreparedRegion,
    active: &mut ActiveHalfspaces,
)
    requires small_trixel { SmallTrixel t.now × RaysOf t.now s }
    requires ready { ReadyRegion region.now }
    ensures active_lists_in { ActiveListsIn region.now active.new }
    ensures room { HasRoom active.new.lists }
{
    let r = crate::settling::anchor_of(t, classify_cap::cap_of(t, classify_cap::middle_of(t), s));
    active.anchor = r;
    active.lists.clear();
    let found = active_in_region(
        r,
        region.halfspaces(),
        region.ends(),
        &mut active.lists,
        active_limit(region.count),
    );
    if found.is_err() {
        active.lists.clear();
    }
}

// Whether the class of t is that by the active halfspaces: there are some, and t is close to their anchor.
fn by_active(t: &Trixel, s: TrixelRays, m: BoundingCap, active: &ActiveHalfspaces) -> bool
    requires rays_of { RaysOf t.now s × IsBoundingCap t.now m }
    requires anchor { IsAnchor active.now.anchor }
    ensures { result ≡ true → ByActive t.now m active.now }
{
    !active.lists.is_empty() && s.oriented && crate::settling::is_close(active.anchor, t, m)
}

// The class of a trixel for a region: by the active halfspaces beside an anchor where there are some and the trixel is close.
fn class_by_caps(
    t: &Trixel,
    s: TrixelRays,
    region: &PreparedRegion,
    active: &ActiveHalfspaces,
) -> Class
    requires rays_of { RaysOf t.now s × SmallTrixel t.now }
    requires ready { ReadyRegion region.now }
    requires active_lists_in { ActiveListsIn region.now active.now }
    ensures { ClassedBy t.now region.now result }
{
    let m = classify_cap::cap_of(t, classify_cap::middle_of(t), s);
    if by_active(t, s, m, active) {
        return classify_region::classify_convexes(
            t,
            s,
            m,
            active.lists.halfspaces(),
            active.lists.ends(),
        );
    }
    classify_region::classify_convexes(t, s, m, region.halfspaces(), region.ends())
}

// At most so many halfspaces are few; more are many.
const FEW: usize = 8;

// Whether a region is one convex of few halfspaces.
fn are_few(region: &PreparedRegion) -> bool
    ensures { result ≡ true → length (ends_in region.now) ≡ 1 }
{
    region.convexes == 1 && region.count <= FEW
}

// The class of a trixel for a region: by the rays first where the region is one convex of few halfspaces.
pub fn class_beside(
    t: &Trixel,
    s: TrixelRays,
    region: &PreparedRegion,
    active: &ActiveHalfspaces,
) -> Class
    requires rays_of { RaysOf t.now s × SmallTrixel t.now }
    requires ready { ReadyRegion region.now }
    requires active_lists_in { ActiveListsIn region.now active.now }
    ensures { ClassedBy t.now region.now result }
{
    if are_few(region) {
        return classify_region::classify_few(t, s, region.halfspaces());
    }
    class_by_caps(t, classify_prepared::copied(s), region, active)
}

// Whether to look for active halfspaces: the region has many halfspaces, and none is known to be active.
pub fn wants_active(region: &PreparedRegion, active: &ActiveHalfspaces) -> bool {
    FEW < region.count && active.lists.is_empty()
}

#[cfg(test)]
mod tests {
    use super::*;

    #[test]
    fn none_is_active_at_first(rt: HostRuntime) {
        let active = ActiveHalfspaces::default();
        assert_eq!(rt; (active.lists.count, active.lists.convexes), (0, 0));
        assert_eq!(rt;
            (active.lists.halfspaces().len(), active.lists.ends().len()),
            (0, 0)
        );
    }
}
