// Results and parts of a trial as numbers in lists, for the calls from C. The rules are those of specs/TrialValues.
ghost use Rattle.std.specs.Prelude.{◌≡◌, ◌+◌, ◌≤◌, length, [], ◌∷◌};
ghost use Rattle.answer.specs.Answer.{refused};
ghost use Rattle.answer.specs.Calls.{number};
ghost use Rattle.answer.specs.Lent.{put};
ghost use Rattle.trial.specs.Answers.{trial_counts, of_choice, part_by};
ghost use Rattle.htm_abi.specs.TrialValues.{choice_in, result_in, trial_in};
ghost use Rattle.trial.specs.Answers.{trial_list};
ghost use Rattle.htm_abi.specs.ShortLists.{setting_refusal_or_space, trial_refusal_or_space};

use answer::Refusal;
use index::OWNERS;
use limits::HALFSPACES;
use trial::{Choice, Setting, SettingResult, Trial};

// The choice that a number stands for.
// Kept: C hands the choice as a number, and any number but 1 is the second choice, as `choice_in` of specs/TrialValues has it.
fn choice_in(n: u64) -> Choice
    ensures { result ≡ choice_in n }
{
    if n == 1 {
        Choice::First
    } else {
        Choice::Second
    }
}

// The number that a choice is in a list.
pub fn choice_number(c: Choice) -> u64
    ensures { result ≡ of_choice c 1 2 }
{
    c as u64
}

// The result of one setting, from element k on.
// Kept: by place, as `result_in` reads a lent list; a pattern of five names, over parts of five, would name each number twice.
fn result_at(numbers: &[u64], k: usize) -> SettingResult
    requires { k + 5 ≤ length numbers.now }
    ensures { result ≡ result_in numbers.now k }
{
    SettingResult {
        unchecked: numbers[k],
        held: numbers[k + 1],
        discarded: numbers[k + 2],
        outer: numbers[k + 3],
        inner: numbers[k + 4],
    }
}

// The result whose numbers stand at the beginning of a list.
pub fn trial_at(numbers: &[u64]) -> Trial
    requires { trial_counts ≤ length numbers.now }
    ensures { result ≡ trial_in numbers.now }
{
    Trial {
        first: result_at(numbers, 0),
        second: result_at(numbers, 5),
        choice: choice_in(numbers[10]),
    }
}

// The refusal of a trial where a lent list is too short: 18, the file's, 5 and 6 of each setting, or 10.
// Kept: owner and file once more, as in specs/ShortLists: `owner_refusal_or_space` gives 10 for a good file, and no clause of `decode` says that a bad one has
// another number.
pub fn trial_refusal_or_space(owner: u32, file: &[u8], s: Setting, t: Setting) -> Refusal
    ensures { trial_refusal_or_space owner file.now s t ≡ refused (number result) }
{
    if OWNERS <= owner {
        return Refusal::Owner;
    }
    let mut rows = [0i32; 5 * HALFSPACES];
    match region_reader::decode(file, &mut rows) {
        Ok(_) => setting_refusal_or_space(s, t),
        Err(r) => r,
    }
}

// 5 or 6 of the first setting that is none; else 10.
fn setting_refusal_or_space(s: Setting, t: Setting) -> Refusal
    ensures { setting_refusal_or_space s t ≡ refused (number result) }
{
    let checked = trial_calls::check_setting(s).and(trial_calls::check_setting(t));
    checked.err().unwrap_or(Refusal::Space)
}

// How many elements of its buffer are the part that `chosen` hands back.
pub fn part_length<'a>(t: Trial, first: &'a [u64], second: &'a [u64]) -> usize
    ensures { result ≡ length (part_by t first.now second.now) }
{
    let answer: Result<Trial, Refusal> = Ok(t);
    trial_calls::chosen(answer, first, second).len()
}

// Which buffer, and how many elements of it, at the beginning of a list.
pub fn put_part(list: &mut [u64], which: u64, n: usize)
    requires { 2 ≤ length list.old }
    ensures { list.new ≡ put 0 (which ∷ n ∷ []) list.old }
{
    crate::put(list, 0, &[which, n as u64]);
}

// The results of both settings, at the beginning of a list.
pub fn put_trial(numbers: &mut [u64], r: Trial)
    requires { trial_counts ≤ length numbers.old }
    ensures { numbers.new ≡ put 0 (trial_list r) numbers.old }
{
    let a = r.first;
    let b = r.second;
    let list = [
        a.unchecked,
        a.held,
        a.discarded,
        a.outer,
        a.inner,
        b.unchecked,
        b.held,
        b.discarded,
        b.outer,
        b.inner,
        choice_number(r.choice),
    ];
    crate::put(numbers, 0, &list);
}
