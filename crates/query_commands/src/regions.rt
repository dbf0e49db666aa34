// The commands of query about regions: holds, cover. Each is answered from the words behind its name. A file is read last, as it takes longest.
use command_words::{FILE_CAPACITY, Words};
use print::{Fault, Output};

// holds HEX X Y Z
pub fn holds(mut words: Words<'_>, out: &mut Output) -> Result<(), Fault> {
    let hex = words;
    words.word()?;
    let (x, y, z) = words.point()?;
    words.end()?;
    test(hex, x, y, z, out)
}

// The point test on the file that is the first of these words.
fn test(mut words: Words<'_>, x: i32, y: i32, z: i32, out: &mut Output) -> Result<(), Fault> {
    let mut bytes = [0u8; FILE_CAPACITY];
    let file = words.file(&mut bytes)?;
    print::regions::held(out, htm::holds(file, x, y, z)?)?;
    Ok(())
}

// cover HEX
pub fn cover(mut words: Words<'_>, out: &mut Output) -> Result<(), Fault> {
    let mut hex = words;
    words.word()?;
    words.end()?;
    let mut bytes = [0u8; FILE_CAPACITY];
    let file = hex.file(&mut bytes)?;
    print::covers::lines_by_byte(out, file, b'|')
}
