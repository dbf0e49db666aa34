// A trial of one region under two settings, and the call beside it that hands back the outer list of the setting chosen: a part of one of the two
// buffers. The file is decoded once, and each setting is searched as frames are (frames_calls). The rules are those of trial/specs.
#![tactic(auto)]

ghost use Rattle.std.specs.Prelude.{◌≡◌, true, List, ℕ, ◌+◌, ◌*◌, ◌^◌, ◌≤◌, length};
ghost use Rattle.region.specs.Budgets.{budget_of};
ghost use Rattle.index.specs.Exposures.{is_owner};
ghost use Rattle.covering_walk.specs.Walk.{SomeRows};
ghost use Rattle.covering_calls.specs.Decoded.{Decoded};
ghost use Rattle.frames_calls.specs.Searches.{FileIs};
ghost use Rattle.trial.specs.Trials.{choice_of};
ghost use Rattle.trial.specs.Answers.{TrialCall, fitting, part_by, buffer_by, IsPart};
ghost use Rattle.trial_calls.specs.Tries.{SettingRefusal, Checks, score_of, trial_by, TriesRows};

use answer::Refusal;
use frames_calls::SearchResult;
use frames_walk::lists::{OwnedEntries, RegionRows};
use index::OWNER_CAPACITY;
use limits::{HALFSPACES, MAX_DEPTH};
use region::Header;
use trial::{Choice, Setting, SettingResult, Trial};

// The result of one setting, and the share of the sky that its outer list spans, in identifiers of depth 12.
#[derive(Clone, Copy)]
pub struct ScoredSetting {
    pub result: SettingResult,
    pub sky: u64,
}

// Whether a setting is one; refusals 5, 6.
// Kept: the like of `Settings::checked` in region_records, which gives the two that it has checked: this gives no value, as `Checks` chains it, and any two
// numbers are a Setting.
pub fn check_setting(s: Setting) -> Result<(), Refusal>
    ensures { SettingRefusal s result }
{
    if !limits::is_depth(s.depth) {
        return Err(Refusal::Depth);
    }
    if !limits::is_budget(s.budget) {
        return Err(Refusal::Budget);
    }
    Ok(())
}

// The checks behind the file's; refusals 5, 6, 5, 6, 10.
fn checks(
    index: &[i64],
    s: Setting,
    t: Setting,
    first: &[u64],
    second: &[u64],
) -> Result<(), Refusal>
    ensures { Checks (length index.now) s t (length first.now) (length second.now) result }
{
    check_setting(s)?;
    check_setting(t)?;
    frames_calls::check_room(s.budget, first)?;
    frames_calls::check_room(t.budget, second)?;
    index::check_length(index)
}

// The result and the share of the sky of a search at a depth.
fn score_of(depth: u32, made: SearchResult) -> ScoredSetting
    requires { (1 ≤ depth) × (depth ≤ 12) × (made.counts.full + made.counts.partial + made.counts.swallowed ≤ 2 ^ 25) }
    ensures { result ≡ score_of depth made }
{
    let span = 4u64.pow(MAX_DEPTH - depth);
    ScoredSetting {
        result: SettingResult {
            unchecked: made.dispositions.unchecked,
            held: made.dispositions.held,
            discarded: made.dispositions.discarded,
            outer: made.counts.outer,
            inner: made.counts.inner,
        },
        sky: (made.counts.full + made.counts.partial + made.counts.swallowed) * span,
    }
}

// One setting on a region: its lists in its buffer, and its result.
fn try_setting(
    entries: OwnedEntries,
    region: RegionRows,
    s: Setting,
    ranges: &mut [u64],
) -> ScoredSetting
    requires le_depth { (1 ≤ s.depth) × (s.depth ≤ 12) × SomeRows region.count region.rows.now }
    requires budget_in_bounds { 4 * budget_of s.budget ≤ length ranges.old }
    ensures { TriesRows entries.entry.owner entries.entry.index.now s region.entry.rows.now region.entry.count
        ranges.old result ranges.new }
{
    let mut numbers = [0u32; OWNER_CAPACITY];
    let budget = limits::budget_of(s.budget);
    let made = frames_calls::search(entries, region, s.depth, budget, ranges, &mut numbers);
    score_of(s.depth, made)
}

// The first where its share is the smaller one or they are equal, else the second.
fn choice(first: u64, second: u64) -> Choice
    ensures { result ≡ choice_of first second }
{
    if first <= second {
        Choice::First
    } else {
        Choice::Second
    }
}

// Both results, and the choice.
fn compared(a: ScoredSetting, b: ScoredSetting) -> Trial
    ensures { result ≡ trial_by a b }
{
    Trial {
        first: a.result,
        second: b.result,
        choice: choice(a.sky, b.sky),
    }
}

// The trial of a decoded file; refusals 5, 6, 5, 6, 10.
fn trial_in(
    index: &[i64],
    owner: u32,
    h: Header,
    rows: &[i32; 5 * HALFSPACES],
    s: Setting,
    t: Setting,
    first: &mut [u64],
    second: &mut [u64],
) -> Result<Trial, Refusal>
    requires file_is { FileIs h rows.now }
    requires owner_value { is_owner owner ≡ true }
    ensures { (f : List ℕ) → Decoded f h rows.now
        → TrialCall owner index.now f s t first.old second.old result first.new second.new }
{
    checks(index, s, t, first, second)?;
    let entries = OwnedEntries { index, owner };
    let region = RegionRows {
        rows,
        count: h.count as usize,
    };
    let one = try_setting(entries, region, s, first);
    let two = try_setting(entries, region, t, second);
    Ok(compared(one, two))
}

// A trial: the two lists of each setting in its buffer, both results, and the choice; refusals 18, the file's, 5, 6, 5, 6, then 10.
pub fn trial(
    index: &[i64],
    owner: u32,
    file: &[u8],
    s: Setting,
    t: Setting,
    first: &mut [u64],
    second: &mut [u64],
) -> Result<Trial, Refusal>
    ensures { TrialCall owner index.now file.now s t first.old second.old
        result first.new second.new }
{
    index::check_owner(owner)?;
    let mut rows = [0i32; 5 * HALFSPACES];
    let h = region_reader::decode(file, &mut rows)?;
    trial_in(index, owner, h, &rows, s, t, first, second)
}

// The first n pairs of a list; none where it has fewer.
fn front<'a>(n: u64, list: &'a [u64]) -> &'a [u64]
    ensures { (result.now ≡ fitting (2 * n) list.now) × (result.ref_ptr ≡ list.entry.ref_ptr) }
{
    if n <= (list.len() as u64) / 2 {
        return &list[..2 * (n as usize)];
    }
    &list[..0]
}

// The outer list of the setting chosen, in its buffer.
fn part_by<'a>(t: Trial, first: &'a [u64], second: &'a [u64]) -> &'a [u64]
    ensures elements { result.now ≡ part_by t first.now second.now }
    ensures address { result.ref_ptr ≡ buffer_by t first.entry.ref_ptr second.entry.ref_ptr }
{
    match t.choice {
        Choice::First => front(t.first.outer, first),
        Choice::Second => front(t.second.outer, second),
    }
}

// Of the two buffers of a trial the chosen one's outer list, itself and not a copy; the empty part after a refusal, or where the buffer is shorter.
pub fn chosen<'a, E: Drop>(res: Result<Trial, E>, first: &'a [u64], second: &'a [u64]) -> &'a [u64]
    ensures { IsPart res first.entry second.entry result }
{
    match res {
        Ok(t) => part_by(t, first, second),
        Err(_) => &first[..0],
    }
}
