// All frames of a region in a single pass: the file is decoded once, its cover is made, and the owner's entries are walked beside the two lists, with the point
// test on the decoded rows. The rules are those of frames/specs/Answers.
#![tactic(auto)]

ghost use Rattle.std.specs.Prelude.{◌≡◌, true, List, ℕ, ◌+◌, ◌*◌, ◌≤◌, ◌<◌, length};
ghost use Rattle.std.specs.Result.{MatchResult};
ghost use Rattle.region.specs.Budgets.{budget_of};
ghost use Rattle.index.specs.Exposures.{OwnerCapacity, is_owner};
ghost use Rattle.frames.specs.Answers.{FramesCall};
ghost use Rattle.covering_walk.specs.Walk.{SomeRows};
ghost use Rattle.covering_calls.specs.Decoded.{Decoded};
ghost use Rattle.frames_calls.specs.Searches.{SearchesRows, FileIs, delivery_of};

use answer::Refusal;
use covering::Counts;
use frames::Frames;
use frames_walk::DispositionCounts;
use frames_walk::lists::{Lists, OwnedEntries, RegionRows};
use index::OWNER_CAPACITY;
use limits::{HALFSPACES, MAX_DEPTH};
use region::Header;

// What a search gives: the counts of the cover, and what became of the entries.
#[derive(Clone, Copy)]
pub struct SearchResult {
    pub counts: Counts,
    pub dispositions: DispositionCounts,
}

// The cover of a region in the range list, and the walk over an owner's entries beside it, with the numbers delivered.
// Kept: `SomeRows` is a clause and no ghost field of RegionRows: it is a word of covering_walk, which frames_walk, where RegionRows is made, does not stand on, and
// a second type of the same rows would be no plainer.
pub fn search(
    entries: OwnedEntries,
    region: RegionRows,
    depth: u32,
    budget: usize,
    ranges: &mut [u64],
    numbers: &mut [u32],
) -> SearchResult
    requires le_depth { (1 ≤ depth) × (depth ≤ 12) × SomeRows region.count region.rows.now }
    requires le_budget { (1 ≤ budget) × (4 * budget ≤ length ranges.old) }
    requires in_bounds { OwnerCapacity ≤ length numbers.old }
    ensures { SearchesRows entries.entry.owner entries.entry.index.now depth budget region.entry.rows.now
        region.entry.count ranges.old numbers.old result ranges.new numbers.new }
{
    let counts = covering_calls::cover(depth, region.rows, region.count, budget, ranges);
    let lists = Lists::lent(
        ranges,
        counts.outer as usize,
        2 * budget,
        counts.inner as usize,
        4u64.pow(MAX_DEPTH - depth),
    );
    let dispositions = frames_walk::walk(entries, lists, region, numbers);
    SearchResult {
        counts,
        dispositions,
    }
}

// How many numbers were delivered, and how many tests made.
fn delivery(t: DispositionCounts) -> Frames
    requires { t.unchecked + t.held + t.discarded ≤ OwnerCapacity }
    ensures { result ≡ delivery_of t }
{
    Frames {
        delivered: t.unchecked + t.held,
        tests: t.held + t.discarded,
    }
}

// Whether a lent list has room for both lists of a cover under a budget as it is written; refusal 10.
pub fn check_room(budget: u32, ranges: &[u64]) -> Result<(), Refusal>
    ensures { MatchResult result (λ _. 4 * budget_of budget ≤ length ranges.now) (λ r. (r ≡ Refusal.Space) × (length ranges.now < 4 * budget_of budget)) }
{
    if ranges.len() < 4 * limits::budget_of(budget) {
        return Err(Refusal::Space);
    }
    Ok(())
}

// The frames of a decoded file; refusal 10.
// Kept: index, owner, ranges and numbers one by one, as htm_frames is lent them; so in the calls of a trial.
fn frames_in(
    index: &[i64],
    owner: u32,
    h: Header,
    rows: &[i32; 5 * HALFSPACES],
    ranges: &mut [u64],
    numbers: &mut [u32],
) -> Result<Frames, Refusal>
    requires file_is { FileIs h rows.now }
    requires owner_value { is_owner owner ≡ true }
    ensures { (f : List ℕ) → Decoded f h rows.now
        → FramesCall owner index.now f ranges.old numbers.old
        result ranges.new numbers.new }
{
    check_room(h.budget, ranges)?;
    if numbers.len() < OWNER_CAPACITY {
        return Err(Refusal::Space);
    }
    index::check_length(index)?;
    let region = RegionRows {
        rows,
        count: h.count as usize,
    };
    let entries = OwnedEntries { index, owner };
    let budget = limits::budget_of(h.budget);
    let made = search(entries, region, h.depth, budget, ranges, numbers);
    Ok(delivery(made.dispositions))
}

// The numbers of an owner's entries that the region of a file holds, from element 0 of `numbers` on, and the cover's lists in `ranges`; refusals 18,
// the file's, then 10.
pub fn frames(
    index: &[i64],
    owner: u32,
    file: &[u8],
    ranges: &mut [u64],
    numbers: &mut [u32],
) -> Result<Frames, Refusal>
    ensures { FramesCall owner index.now file.now ranges.old numbers.old
        result ranges.new numbers.new }
{
    index::check_owner(owner)?;
    let mut rows = [0i32; 5 * HALFSPACES];
    let h = region_reader::decode(file, &mut rows)?;
    frames_in(index, owner, h, &rows, ranges, numbers)
}
