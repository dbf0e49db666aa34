// The command of archive that finds the frames of a region: frames. It is answered from the words behind its name.
use command_words::{FILE_CAPACITY, Words};
use index::OWNER_CAPACITY;
use print::covers::RANGES_LENGTH;
use print::{Fault, Output};
use std::fmt::Write;

// frames OWNER HEX
pub fn frames(index: &[i64], mut words: Words<'_>, out: &mut Output) -> Result<(), Fault> {
    let owner = words.natural()?;
    let mut hex = words;
    words.word()?;
    words.end()?;
    let mut bytes = [0u8; FILE_CAPACITY];
    let file = hex.file(&mut bytes)?;
    let mut ranges = [0u64; RANGES_LENGTH];
    let mut numbers = [0u32; OWNER_CAPACITY];
    let counts = htm::frames(index, owner, file, &mut ranges, &mut numbers)?;
    let n = print::least(counts.delivered, OWNER_CAPACITY);
    write!(out, "{} {}", counts.delivered, counts.tests)?;
    out.list(&numbers[..n])?;
    out.write_str("\n")?;
    Ok(())
}
