// The cover of rows: the eight roots one after the other, then the closing of the inner list, and the counts. The rule is `listed` and `cutting` of
// covering/specs/Cover.
#![tactic(auto)]

ghost use Rattle.std.specs.Prelude.{◌≡◌, ◌*◌, ◌^◌, ◌≤◌, ◌<◌, length, drop};
ghost use Rattle.classify_prepared.specs.PreparedRegions.{ReadyRegion};
ghost use Rattle.classify_active.specs.Active.{ActiveListsIn};
ghost use Rattle.ranges.specs.Ranges.{ranges_in};
ghost use Rattle.ranges.specs.Contents.{identifiers};
ghost use Rattle.ranges.proofs.Pushing.{inner_end};
ghost use Rattle.ranges_stored.specs.Stored.{state_of};
ghost use Rattle.covering_tally.specs.Tally.{InnerEnded, TallyInvariant, CountsContained};
ghost use Rattle.covering_walk.specs.Walk.{RootNeeds, RootsGive, Finishes, Covers, SomeRows, CoversRows};
ghost use Rattle.mesh.specs.Trixels.{root_trixel};

use classify_active::ActiveHalfspaces;
use classify_prepared::prepared_region::{ENDS, HalfspaceLists, PreparedRegion};
use covering::Counts;
use covering_tally::Tally;
use covering_walk::Level;
use covering_walk::stored_trixel::StoredTrixel;
use limits::HALFSPACES;

// Root number k, with its first ray.
fn root(k: u64) -> StoredTrixel
    requires { k < 8 }
    ensures { result.trixel ≡ root_trixel k }
{
    let root = mesh_trixels::root(k);
    StoredTrixel {
        trixel: root,
        ray: classify_prepared::first_ray(&root),
    }
}

// The eight roots, in identifier order.
fn visit_each_root(
    depth: u32,
    region: &PreparedRegion,
    active: &ActiveHalfspaces,
    out: &mut [u64],
    s: &mut Tally,
)
    requires root_needs { RootNeeds depth region.now s.old out.old }
    requires active_lists_in { ActiveListsIn region.now active.now }
    ensures { RootsGive depth region.now s.old out.old s.new out.new }
{
    let left = depth - 1;
    let span = 4u64.pow(left);
    for k in 0..8 {
        let trixel = root(k);
        let level = Level {
            id: 8 + k,
            left,
            span,
        };
        covering_walk::visit(&trixel, level, region, active, out, s);
    }
}

// As above, where no halfspaces are known to be active.
fn visit_roots(depth: u32, region: &PreparedRegion, out: &mut [u64], s: &mut Tally)
    requires { RootNeeds depth region.now s.old out.old }
    ensures { RootsGive depth region.now s.old out.old s.new out.new }
{
    let active = ActiveHalfspaces::default();
    visit_each_root(depth, region, &active, out, s);
}

// Closes the inner list. The result is how many ranges it has.
// Kept: the part that begins at element 2 × budget, as in `push_inner` of covering_tally.
fn end_inner(out: &mut [u64], s: &Tally) -> usize
    requires { TallyInvariant s.now out.old }
    ensures { InnerEnded s.now.budget out.old out.new
        (inner_end s.now.budget (state_of s.now.inner
        (drop (2 * s.now.budget) out.old))) result }
{
    ranges_lists::inner_end(&mut out[2 * s.budget..], s.inner, s.budget)
}

// How many identifiers the first n ranges of a list contain.
// Kept: ranges are pairs of numbers in a list, as C lends it.
fn identifiers_in(list: &[u64], n: usize) -> u64
    requires { (2 * n ≤ length list.now) × (identifiers (ranges_in n list.now) ≤ 2 ^ 25) }
    ensures { result ≡ identifiers (ranges_in n list.now) }
{
    let (pairs, _) = list.as_chunks::<2>();
    let mut sum = 0;
    for [low, high] in &pairs[..n] {
        sum += high.saturating_sub(*low) + 1;
    }
    sum
}

// Closes both lists, and reads the counts.
fn finish(out: &mut [u64], s: &Tally) -> Counts
    requires tally_invariant { TallyInvariant s.now out.old }
    requires counts_contained { CountsContained s.now out.old }
    ensures { Finishes s.now out.old result out.new }
{
    let contained = identifiers_in(out, s.outer.n);
    let m = end_inner(out, s);
    s.counts(m as u64, contained)
}

// The cover of a prepared region.
// Kept: depth and budget are numbers, and their bounds clauses: that of the budget is of the lent list too, and a type of the depth would be made by `cover` of
// htm, frames_in and try_setting for this one call each.
fn cover_prepared(depth: u32, region: &PreparedRegion, budget: usize, out: &mut [u64]) -> Counts
    requires le_depth { (1 ≤ depth) × (depth ≤ 12) }
    requires ready { ReadyRegion region.now }
    requires le_budget { (1 ≤ budget) × (4 * budget ≤ length out.old) }
    ensures { Covers region.now budget depth out.old result out.new }
{
    let mut s = Tally::new(budget);
    visit_roots(depth, region, out, &mut s);
    finish(out, &s)
}

// The cover of the region of n rows: the outer list from element 0 of `out`, the inner list from element 2 × budget.
// Kept: an array and how many rows it begins with, as `SomeRows` and `CoversRows` speak of both; so `FitRows` of `prepare`, `rows_hold` of region_points and
// `FilledRows` of `convexes_in`.
pub fn cover(
    depth: u32,
    rows: &[i32; 5 * HALFSPACES],
    n: usize,
    budget: usize,
    out: &mut [u64],
) -> Counts
    requires le_depth { (1 ≤ depth) × (depth ≤ 12) }
    requires some_rows { SomeRows n rows.now }
    requires le_budget { (1 ≤ budget) × (4 * budget ≤ length out.old) }
    ensures { CoversRows n rows.now budget depth out.old result out.new }
{
    let mut region = HalfspaceLists {
        halfspaces: [classify_prepared::NO_HALFSPACE; HALFSPACES],
        ends: [0; ENDS],
        count: 0,
        convexes: 0,
    };
    classify_prepared::preparing::prepare(rows, n, &mut region);
    cover_prepared(depth, &region, budget, out)
}
