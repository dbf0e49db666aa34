// Lines of input over one index, each answered as it ends: the commands add, remove, list, frames and trial.
#![tactic(auto)]

use command_words::{Words, lines};
use index::{Entry, INDEX_CAPACITY, INDEX_LENGTH};
use print::{Fault, Output, Point};
use std::fmt;
use std::fmt::Write;
use streams::Streams;

pub mod frame_search;
pub mod setting_trial;

// Kept: a list of numbers, as it is what the calls of htm are lent, from C too.
type Index = [i64; INDEX_LENGTH];

// Answers the lines of the input, over an index that begins empty.
pub fn answer_lines(streams: Streams) {
    let mut index = [0i64; INDEX_LENGTH];
    lines::answer_lines(streams, |line, out| answer(&mut index, line.text, out));
}

// The answer to a line, by its first word.
fn answer(index: &mut Index, line: &[u8], out: &mut Output) -> Result<(), Fault> {
    let mut words = Words::of(line);
    match words.word()? {
        b"add" => add(index, words, out),
        b"remove" => remove(index, words, out),
        b"list" => list(index, words, out),
        b"frames" => frame_search::frames(index, words, out),
        b"trial" => setting_trial::trial(index, words, out),
        _ => Err(Fault::Malformed),
    }
}

// add OWNER NUMBER X Y Z
fn add(index: &mut [i64], mut words: Words<'_>, out: &mut Output) -> Result<(), Fault> {
    let owner = words.natural()?;
    let number = words.natural()?;
    let (x, y, z) = words.point()?;
    words.end()?;
    htm::add(index, owner, number, x, y, z)?;
    out.write_str("ok\n")?;
    Ok(())
}

// remove OWNER NUMBER
fn remove(index: &mut [i64], mut words: Words<'_>, out: &mut Output) -> Result<(), Fault> {
    let owner = words.natural()?;
    let number = words.natural()?;
    words.end()?;
    htm::remove(index, owner, number)?;
    out.write_str("ok\n")?;
    Ok(())
}

// list, list OWNER
// Kept: two calls of `entries`; with one the owner would be an Option that the same `if` makes, and its check would go through that Option.
fn list(index: &[i64], mut words: Words<'_>, out: &mut Output) -> Result<(), Fault> {
    if words.is_over() {
        entries(index, None, out)?;
        return Ok(());
    }
    let owner = words.natural()?;
    words.end()?;
    index::check_owner(owner)?;
    entries(index, Some(owner), out)?;
    Ok(())
}

// The entries of an owner in their order, or those of both; `-` where there is none.
fn entries(index: &[i64], owner: Option<u32>, out: &mut Output) -> fmt::Result {
    let mut is_first = true;
    // Kept: by place, as `index_entry` of the library gives an entry by its place, for C too.
    for place in 0..INDEX_CAPACITY {
        let Ok(Some(e)) = htm::index_entry(index, place as u32) else {
            break;
        };
        if owner.is_none_or(|o| o as i64 == e.owner) {
            if !is_first {
                out.write_str("|")?;
            }
            is_first = false;
            entry(out, e)?;
        }
    }
    out.write_str(if is_first { "-\n" } else { "\n" })
}

fn entry(out: &mut Output, e: Entry) -> fmt::Result {
    write!(
        out,
        "{} {} {} {}",
        e.id,
        e.number,
        e.owner,
        Point(e.pointing)
    )
}
