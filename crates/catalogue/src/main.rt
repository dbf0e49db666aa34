// The lookup of a whole catalogue: `catalogue DEPTH` answers each line of standard input by one line on standard output, identifier and name of the
// trixel that holds its pointing, or `refused N`. A line is three decimals parted by one blank and closed by a line feed; a last line without its line
// feed is malformed. DEPTH is a decimal number from 1 to 12; where it is missing, is none or is not alone, one line says how to call it.
#![tactic(auto)]

use streams::{Streams, WORD_BYTES};

fn main(rt: HostRuntime) {
    let streams = Streams::of(&rt);
    let mut word = [0u8; WORD_BYTES];
    let depth = streams::argument(&rt, 1, &mut word).and_then(|word| catalogue_stream::depth_in(
        word,
        streams::argument_count(&rt),
    ));
    match depth {
        Some(depth) => catalogue_stream::answer_lines(streams, depth),
        None => catalogue_stream::usage(streams),
    }
}
