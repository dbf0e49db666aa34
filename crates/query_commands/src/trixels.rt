// The commands of query about trixels: lookup, line, name, id, corners. Each is answered from the words behind its name.
use command_words::{FILE_CAPACITY, Words};
use print::{Fault, Output, Point};
use std::fmt::Write;

// lookup X Y Z DEPTH
pub fn lookup(mut words: Words<'_>, out: &mut Output) -> Result<(), Fault> {
    let (x, y, z) = words.point()?;
    let depth = words.natural()?;
    words.end()?;
    out.located(htm::locate(x, y, z, depth)?)?;
    Ok(())
}

// line HEX DEPTH
pub fn line(mut words: Words<'_>, out: &mut Output) -> Result<(), Fault> {
    let mut hex = words;
    words.word()?;
    let depth = words.natural()?;
    words.end()?;
    let mut bytes = [0u8; FILE_CAPACITY];
    let line = hex.file(&mut bytes)?;
    out.located(htm::locate_line(line, depth)?)?;
    Ok(())
}

// name ID
pub fn name(mut words: Words<'_>, out: &mut Output) -> Result<(), Fault> {
    let id = words.identifier()?;
    words.end()?;
    out.name(id)?;
    out.write_str("\n")?;
    Ok(())
}

// id NAME
pub fn id(mut words: Words<'_>, out: &mut Output) -> Result<(), Fault> {
    let name = words.word()?;
    words.end()?;
    if name.is_empty() {
        return Err(Fault::Malformed);
    }
    writeln!(out, "{}", htm::identifier(name)?)?;
    Ok(())
}

// corners ID
pub fn corners(mut words: Words<'_>, out: &mut Output) -> Result<(), Fault> {
    let id = words.identifier()?;
    words.end()?;
    let c = htm::corners(id)?;
    writeln!(out, "{} {} {}", Point(c.v0), Point(c.v1), Point(c.v2))?;
    Ok(())
}
