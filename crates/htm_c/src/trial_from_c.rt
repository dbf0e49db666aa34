// The calls on trials for a host in C, as the archive exports them: each is the call of the same name in the library, with the same clauses. None has a
// `requires`. A list is passed as a pointer and its number of elements: include/htm.h.
ghost use Rattle.std.specs.Prelude.{◌≡◌};
ghost use Rattle.htm_abi.specs.Values.{status_of};
ghost use Rattle.htm_abi.specs.TrialValues.{setting_of};
ghost use Rattle.htm.specs.TrialFromC.{TrialCallC, chosen_for_c, chosen_after_c};

// A trial: the two lists of each setting in its buffer, and eleven numbers at the beginning of `numbers`: unchecked, held, discarded, outer and inner count of
// each setting, and the choice, 1 or 2. 0, or minus the number of the refusal, 10 also where `numbers` has fewer elements.
#[unsafe(no_mangle)]
pub extern "C" fn htm_trial(
    index: &[i64],
    owner: u32,
    file: &[u8],
    depth_1: u32,
    budget_1: u32,
    depth_2: u32,
    budget_2: u32,
    first: &mut [u64],
    second: &mut [u64],
    numbers: &mut [u64],
) -> i64
    ensures { TrialCallC owner index.now file.now (setting_of depth_1 budget_1) (setting_of depth_2 budget_2)
        first.old second.old numbers.old result first.new second.new numbers.new }
{
    htm::trial_from_c::htm_trial(
        index, owner, file, depth_1, budget_1, depth_2, budget_2, first, second, numbers,
    )
}

// The part that `chosen` hands back, given what `htm_trial` returned, its numbers and its two buffers: which buffer, and how many elements of it, at the
// beginning of `part`. Any status but 0 is a refusal: no buffer, and the empty part. 0, or −10.
#[unsafe(no_mangle)]
pub extern "C" fn htm_chosen<'a>(
    status: i64,
    numbers: &[u64],
    first: &'a [u64],
    second: &'a [u64],
    part: &mut [u64],
) -> i64
    ensures value { result ≡ status_of (chosen_for_c status numbers.now first.now second.now part.old) }
    ensures part_after { part.new
        ≡ chosen_after_c status numbers.now first.now second.now part.old }
{
    htm::trial_from_c::htm_chosen(status, numbers, first, second, part)
}
