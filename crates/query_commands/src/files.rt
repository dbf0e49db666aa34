// The commands of query that turn region files into rows and back, and from one style to the other: rows, file, grouped, togrouped, toplain. Each is
// answered from the words behind its name.
use command_words::{FILE_CAPACITY, WORD_CAPACITY, Words};
use limits::{HALFSPACES, MAX_FILE_BYTES};
use print::regions::Digits;
use print::{Fault, Output};
use region::Style;
use std::fmt::Write;

// The most numbers in the rows of a region file.
const ROWS: usize = 5 * HALFSPACES;

// rows HEX
pub fn rows(mut words: Words<'_>, out: &mut Output) -> Result<(), Fault> {
    let mut hex = words;
    words.word()?;
    words.end()?;
    let mut bytes = [0u8; FILE_CAPACITY];
    let file = hex.file(&mut bytes)?;
    let mut rows = [0i32; ROWS];
    let header = htm::read(file, &mut rows)?;
    let n = print::least(header.count as u64 * 5, ROWS);
    print::regions::rows(out, header, &rows[..n])?;
    Ok(())
}

// file DEPTH BUDGET N1 N2 .., and grouped likewise
pub fn file(style: Style, mut words: Words<'_>, out: &mut Output) -> Result<(), Fault> {
    let depth = words.natural()?;
    let budget = words.natural()?;
    let mut numbers = [0i32; WORD_CAPACITY];
    let rows = words.numbers(&mut numbers)?;
    let mut bytes = [0u8; MAX_FILE_BYTES];
    let length = match style {
        Style::Plain => htm::write(depth, budget, rows, &mut bytes),
        Style::Grouped => htm::write_grouped(depth, budget, rows, &mut bytes),
    };
    print_file(out, length?, &bytes)
}

// togrouped HEX, toplain HEX
pub fn convert(style: Style, mut words: Words<'_>, out: &mut Output) -> Result<(), Fault> {
    let mut hex = words;
    words.word()?;
    words.end()?;
    let mut given = [0u8; FILE_CAPACITY];
    let file = hex.file(&mut given)?;
    let mut bytes = [0u8; MAX_FILE_BYTES];
    let length = match style {
        Style::Plain => htm::to_plain(file, &mut bytes),
        Style::Grouped => htm::to_grouped(file, &mut bytes),
    };
    print_file(out, length?, &bytes)
}

// A file that was written, by its length.
fn print_file(out: &mut Output, length: u64, bytes: &[u8; MAX_FILE_BYTES]) -> Result<(), Fault> {
    let n = print::least(length, MAX_FILE_BYTES);
    writeln!(out, "{}", Digits(&bytes[..n]))?;
    Ok(())
}
