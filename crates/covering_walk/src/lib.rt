// The recursion over trixels: one trixel is classified and accepted, left out or cut into its children. The rule is `visit` of covering/specs/Cover; what is
// found stands in specs/Walk, what goes from a trixel to its children in specs/Children.
#![tactic(auto)]

ghost use Rattle.std.specs.Prelude.{◌≡◌, ◌-◌, ◌<◌};
ghost use Rattle.mesh.specs.Trixels.{child};
ghost use Rattle.mesh_trixels.specs.Corners.{SmallTrixel};
ghost use Rattle.classify.specs.Shape.{ray0};
ghost use Rattle.classify_prepared.specs.PreparedRegions.{ReadyRegion};
ghost use Rattle.classify_active.specs.Active.{ActiveListsIn};
ghost use Rattle.covering_tally.specs.Tally.{TallyInvariant};
ghost use Rattle.covering_walk.specs.Children.{ClassifiedOf, CutParts};
ghost use Rattle.covering_walk.specs.Walk.{found_in, found_below, child_level, LevelFits, Divisible, Needs, CutNeeds, Gives, AcceptedOrCut};

use crate::stored_trixel::StoredTrixel;
use classify::Class;
use classify_active::ActiveHalfspaces;
use classify_prepared::prepared_region::PreparedRegion;
use covering_tally::Tally;
use mesh::{Cut, Trixel};
use ranges::Range;
use vector::Vec3;

pub mod stored_trixel;

// Where a trixel stands in the cutting: its identifier, how many levels it is above the depth, and how many descendants it has there.
#[derive(Clone, Copy)]
pub struct Level {
    pub id: u64,
    pub left: u32,
    pub span: u64,
}

// What was found of a trixel: its class, its second and its third ray.
#[derive(Clone, Copy)]
pub struct ClassifiedTrixel {
    pub class: Class,
    pub second: Vec3,
    pub third: Vec3,
}

// The class of a trixel, and its other rays.
fn classify_trixel(
    trixel: &StoredTrixel,
    region: &PreparedRegion,
    active: &ActiveHalfspaces,
) -> ClassifiedTrixel
    requires ready { ReadyRegion region.now }
    requires active_lists_in { ActiveListsIn region.now active.now }
    ensures { ClassifiedOf trixel.now.trixel region.now result }
{
    let s = classify_prepared::measured(&trixel.trixel, trixel.ray);
    let class = classify_active::class_beside(&trixel.trixel, s, region, active);
    ClassifiedTrixel {
        class,
        second: s.r1.r,
        third: s.r2.r,
    }
}

// The active halfspaces beside a trixel.
fn find_active(trixel: &StoredTrixel, region: &PreparedRegion, active: &mut ActiveHalfspaces)
    requires { ReadyRegion region.now }
    ensures { ActiveListsIn region.now active.new }
{
    let s = classify_prepared::measured(&trixel.trixel, trixel.ray);
    classify_active::find_active(&trixel.trixel, s, region, active);
}

// Counts a trixel as seen, and leaves it out or accepts it by its class. False where it is partial and above the depth: it is neither then, and is to be cut.
fn accept_or_cut(
    classified: ClassifiedTrixel,
    level: Level,
    out: &mut [u64],
    tally: &mut Tally,
) -> bool
    requires tally_invariant { TallyInvariant tally.old out.old }
    requires level_fits { LevelFits level.id level.left level.span tally.old.seen }
    ensures { AcceptedOrCut result classified level tally.old out.old tally.new out.new }
{
    let class = classified.class;
    let id = level.id;
    let span = level.span;
    match class {
        Class::Outside => {
            tally.seen_more();
            true
        }
        Class::Full => {
            tally.take_full(
                out,
                Range {
                    low: id * span,
                    high: id * span + (span - 1),
                },
            );
            true
        }
        Class::Partial => {
            if level.left == 0 {
                tally.take_partial(out, Range { low: id, high: id });
                return true;
            }
            tally.seen_more();
            false
        }
    }
}

// The level of child number k.
fn child_level(level: Level, k: u64) -> Level
    requires { Divisible level × (k < 4) }
    ensures { result ≡ child_level level k }
{
    Level {
        id: 4 * level.id + k,
        left: level.left - 1,
        span: level.span / 4,
    }
}

// The trixel t, with its first ray r.
fn stored(t: Trixel, r: Vec3) -> StoredTrixel
    requires small_trixel { SmallTrixel t }
    requires r_value { r ≡ ray0 t }
    ensures { result.trixel ≡ t }
{
    StoredTrixel { trixel: t, ray: r }
}

// Child number k of a trixel with its cut. The first ray of child 0, 1 or 2 is the first, second or third ray of the trixel.
fn child_of(k: u64, parent: &StoredTrixel, cut: Cut, classified: ClassifiedTrixel) -> StoredTrixel
    requires { CutParts parent.now.trixel cut parent.now.ray classified × (k < 4) }
    ensures { result.trixel ≡ child k parent.now.trixel }
{
    match k {
        0 => stored(mesh_trixels::child0(parent.trixel, cut), parent.ray),
        1 => stored(mesh_trixels::child1(parent.trixel, cut), classified.second),
        2 => stored(mesh_trixels::child2(parent.trixel, cut), classified.third),
        _ => {
            let last = mesh_trixels::child3(parent.trixel, cut);
            stored(last, classify_prepared::first_ray(&last))
        }
    }
}

// What was found of a trixel, and a level, put together anew: what is handed to the next level goes through memory, so it is the copies that do, and only
// where a trixel is cut.
// Kept: tried without these copies and that of classify_prepared, and a cover of 100 halfspaces in one convex takes 12 % longer, and 384 bytes more of stack.
fn copied(classified: ClassifiedTrixel) -> ClassifiedTrixel
    ensures { result ≡ classified }
{
    let class = classified.class;
    let second = classified.second;
    let third = classified.third;
    ClassifiedTrixel {
        class,
        second,
        third,
    }
}

fn copied_level(level: Level) -> Level
    ensures { result ≡ level }
{
    Level {
        id: level.id,
        left: level.left,
        span: level.span,
    }
}

// The trixel of a level; `active` are the halfspaces of the region that are active beside an anchor, if some are known. The two lists are in `out`.
#[cycle(children_children_by_active_visit)]
pub fn visit(
    trixel: &StoredTrixel,
    level: Level,
    region: &PreparedRegion,
    active: &ActiveHalfspaces,
    out: &mut [u64],
    tally: &mut Tally,
)
    requires needs { Needs level region.now tally.old out.old }
    requires active_lists_in { ActiveListsIn region.now active.now }
    ensures { Gives region.now 1 level.left (found_in level trixel.now.trixel) tally.old out.old tally.new out.new }
{
    let classified = classify_trixel(trixel, region, active);
    if accept_or_cut(classified, level, out, tally) {
        return;
    }
    let found = copied(classified);
    let here = copied_level(level);
    if classify_active::wants_active(region, active) {
        children_by_active(trixel, found, here, region, out, tally);
        return;
    }
    children(trixel, found, here, region, active, out, tally);
}

// The four children of a trixel, by the halfspaces that are active beside it.
#[cycle(children_children_by_active_visit)]
fn children_by_active(
    trixel: &StoredTrixel,
    classified: ClassifiedTrixel,
    level: Level,
    region: &PreparedRegion,
    out: &mut [u64],
    tally: &mut Tally,
)
    requires { CutNeeds trixel.now.trixel classified level region.now tally.old out.old }
    ensures { Gives region.now 4 (level.left - 1) (found_below level trixel.now.trixel) tally.old out.old tally.new
        out.new }
{
    let mut active = ActiveHalfspaces::default();
    find_active(trixel, region, &mut active);
    children(trixel, classified, level, region, &active, out, tally);
}

// The four children of a trixel of a level, one after the other. Each is put together from the trixel where that lies, so that no level keeps it on the
// stack; and this stands apart, so that a level that looks for active halfspaces has room for one child only.
#[cycle(children_children_by_active_visit)]
#[inline(never)]
fn children(
    trixel: &StoredTrixel,
    classified: ClassifiedTrixel,
    level: Level,
    region: &PreparedRegion,
    active: &ActiveHalfspaces,
    out: &mut [u64],
    tally: &mut Tally,
)
    requires cut_needs { CutNeeds trixel.now.trixel classified level region.now tally.old out.old }
    requires active_lists_in { ActiveListsIn region.now active.now }
    ensures { Gives region.now 4 (level.left - 1) (found_below level trixel.now.trixel) tally.old out.old tally.new
        out.new }
{
    let cut = mesh_trixels::cut(trixel.trixel);
    for k in 0..4 {
        let child = child_of(k, trixel, cut, classified);
        visit(&child, child_level(level, k), region, active, out, tally);
    }
}
