// Lines of a catalogue, each looked up as it ends, and the argument of the program.
#![tactic(auto)]

ghost use Rattle.catalogue_stream.specs.Argument.{DepthInRange};

use command_words::{Words, lines};
use streams::Streams;

// The depth in the first argument: a number from 1 to 12, alone in its word. The program's name is counted with the arguments, and no other may follow.
pub fn depth_in(word: &[u8], arguments: usize) -> Option<u32>
    ensures { DepthInRange result }
{
    let mut words = Words::of(word);
    let depth = words.natural().ok()?;
    words.end().ok()?;
    // Kept: an `if`, as with `then_some` the test in brackets would stand before it, and its value could be read as the depth of any word.
    if arguments == 2 && limits::is_depth(depth) {
        Some(depth)
    } else {
        None
    }
}

// How the program is called.
pub fn usage(streams: Streams) {
    let _ = streams.write(b"usage: catalogue DEPTH < LINES\n");
}

// Answers the lines of the input, each with its line feed.
pub fn answer_lines(streams: Streams, depth: u32) {
    lines::answer_lines(streams, |line, out| {
        let id = htm::locate_line(line.with_feed, depth)?;
        out.located(id)?;
        Ok(())
    });
}
