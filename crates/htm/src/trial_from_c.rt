// A trial of two settings for a host in C: settings, results and parts as numbers. None has a `requires`. A list is passed as a pointer and its number
// of elements: include/htm.h.
ghost use Rattle.std.specs.Prelude.{◌≡◌};
ghost use Rattle.htm_abi.specs.Values.{status_of};
ghost use Rattle.htm_abi.specs.TrialValues.{setting_of};
ghost use Rattle.htm.specs.TrialFromC.{TrialCallC, chosen_for_c, chosen_after_c};

use answer::Refusal;
use trial::{Setting, TRIAL_COUNTS};

// How many numbers give a part: which buffer, and how many elements of it.
const PART_LENGTH: usize = 2;

// A trial: the two lists of each setting in its buffer, and eleven numbers at the beginning of `numbers`: unchecked, held, discarded, outer and inner count of
// each setting, and the choice, 1 or 2. 0, or minus the number of the refusal, 10 also where `numbers` has fewer elements.
// Kept: a match, as in from_c.rt: with `?` it was two functions, the second with the same clauses of its lists once more.
#[unsafe(no_mangle)]
pub extern "C" fn htm_trial(
    index: &[i64],
    owner: u32,
    file: &[u8],
    depth_1: u32,
    budget_1: u32,
    depth_2: u32,
    budget_2: u32,
    first: &mut [u64],
    second: &mut [u64],
    numbers: &mut [u64],
) -> i64
    ensures { TrialCallC owner index.now file.now (setting_of depth_1 budget_1) (setting_of depth_2 budget_2)
        first.old second.old numbers.old result first.new second.new numbers.new }
{
    let s = Setting {
        depth: depth_1,
        budget: budget_1,
    };
    let t = Setting {
        depth: depth_2,
        budget: budget_2,
    };
    if numbers.len() < TRIAL_COUNTS {
        let refusal = htm_abi::trials::trial_refusal_or_space(owner, file, s, t);
        return htm_abi::minus(refusal.number());
    }
    match crate::trial(index, owner, file, s, t, first, second) {
        Ok(r) => {
            htm_abi::trials::put_trial(numbers, r);
            0
        }
        Err(r) => htm_abi::minus(r.number()),
    }
}

// The part that `chosen` hands back, given what `htm_trial` returned, its numbers and its two buffers: which buffer, and how many elements of it, at the
// beginning of `part`. Any status but 0 is a refusal: no buffer, and the empty part. 0, or −10.
// Kept: two tests with one refusal, as each is of a list of its own: the edit c_part_of_one is of the second.
#[unsafe(no_mangle)]
pub extern "C" fn htm_chosen<'a>(
    status: i64,
    numbers: &[u64],
    first: &'a [u64],
    second: &'a [u64],
    part: &mut [u64],
) -> i64
    ensures value { result ≡ status_of (chosen_for_c status numbers.now first.now second.now part.old) }
    ensures part_after { part.new
        ≡ chosen_after_c status numbers.now first.now second.now part.old }
{
    if numbers.len() < TRIAL_COUNTS {
        return htm_abi::minus(Refusal::Space.number());
    }
    if part.len() < PART_LENGTH {
        return htm_abi::minus(Refusal::Space.number());
    }
    if status != 0 {
        htm_abi::trials::put_part(part, 0, 0);
        return 0;
    }
    let t = htm_abi::trials::trial_at(numbers);
    let n = htm_abi::trials::part_length(t, first, second);
    htm_abi::trials::put_part(part, htm_abi::trials::choice_number(t.choice), n);
    0
}
