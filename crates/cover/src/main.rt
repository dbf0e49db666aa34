// The cover of the region file on standard input, as lines on standard output (print::covers has their shape). A file that cannot be read to its
// end has no answer. There are no arguments: with `--help`, or with any, it prints how it is called.
#![tactic(auto)]

use limits::MAX_FILE_BYTES;
use print::Output;
use streams::Streams;

// A byte longer than the longest region file, so that a file that is too long is seen to be.
// Kept: the like of command_words, on which this program does not stand, as it reads no lines.
const BYTES: usize = MAX_FILE_BYTES + 1;

fn main(rt: HostRuntime) {
    let streams = Streams::of(&rt);
    if !streams::has_no_argument(&rt, streams, b"usage: cover < FILE\n") {
        return;
    }
    let mut file = [0u8; BYTES];
    let Ok(n) = streams.read_all(&mut file) else {
        return;
    };
    let mut out = Output::new(streams);
    let answer = print::covers::lines_by_byte(&mut out, &file[..n], b'\n');
    let _ = out.ended(answer);
    let _ = out.flush();
}
