// The command of archive that tries two settings for a region: trial. It is answered from the words behind its name.
use command_words::{FILE_CAPACITY, Words};
use print::covers::RANGES_LENGTH;
use print::{Fault, Output};
use std::fmt;
use std::fmt::Write;
use trial::{Choice, Setting, SettingResult, Trial};

// trial OWNER HEX D1 B1 D2 B2
pub fn trial(index: &[i64], mut words: Words<'_>, out: &mut Output) -> Result<(), Fault> {
    let owner = words.natural()?;
    let mut hex = words;
    words.word()?;
    let s = setting(&mut words)?;
    let t = setting(&mut words)?;
    words.end()?;
    let mut bytes = [0u8; FILE_CAPACITY];
    let file = hex.file(&mut bytes)?;
    let mut first = [0u64; RANGES_LENGTH];
    let mut second = [0u64; RANGES_LENGTH];
    let result = htm::trial(index, owner, file, s, t, &mut first, &mut second);
    let part = htm::chosen(result, &first, &second);
    compared(out, result?, part)?;
    Ok(())
}

// Two words: a depth and a budget.
fn setting(words: &mut Words<'_>) -> Result<Setting, Fault> {
    Ok(Setting {
        depth: words.natural()?,
        budget: words.natural()?,
    })
}

// The results of both settings, the choice, and the ranges of the part that is handed back.
fn compared(out: &mut Output, both: Trial, part: &[u64]) -> fmt::Result {
    setting_result(out, both.first)?;
    setting_result(out, both.second)?;
    // Kept: a match, as `both.choice as u8` doesn't show what is printed.
    out.write_str(match both.choice {
        Choice::First => "1",
        Choice::Second => "2",
    })?;
    let (ranges, _) = part.as_chunks::<2>();
    for [low, high] in ranges {
        write!(out, "|{low} {high}")?;
    }
    out.write_str("\n")
}

// The result of one setting, each number with a blank behind it.
fn setting_result(out: &mut Output, one: SettingResult) -> fmt::Result {
    write!(
        out,
        "{} {} {} {} {} ",
        one.unchecked, one.held, one.discarded, one.outer, one.inner
    )
}
