// Lines of input, each answered as it ends.
#![tactic(auto)]

use command_words::{Words, lines};
use print::{Fault, Output};
use region::Style;
use streams::Streams;

pub mod files;
pub mod regions;
pub mod reports;
pub mod trixels;

// Answers the lines of the input.
pub fn answer_lines(streams: Streams) {
    lines::answer_lines(streams, |line, out| answer(line.text, out));
}

// The answer to a line, by its first word.
fn answer(line: &[u8], out: &mut Output) -> Result<(), Fault> {
    let mut words = Words::of(line);
    match words.word()? {
        b"lookup" => trixels::lookup(words, out),
        b"double" => reports::double(words, out),
        b"single" => reports::single(words, out),
        b"line" => trixels::line(words, out),
        b"name" => trixels::name(words, out),
        b"id" => trixels::id(words, out),
        b"corners" => trixels::corners(words, out),
        b"rows" => files::rows(words, out),
        b"file" => files::file(Style::Plain, words, out),
        b"grouped" => files::file(Style::Grouped, words, out),
        b"togrouped" => files::convert(Style::Grouped, words, out),
        b"toplain" => files::convert(Style::Plain, words, out),
        b"holds" => regions::holds(words, out),
        b"cover" => regions::cover(words, out),
        _ => Err(Fault::Malformed),
    }
}
