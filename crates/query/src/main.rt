// The support desk's tool: answers command lines on standard input, one line each on standard output.
//
//   lookup X Y Z DEPTH   identifier and name of the trixel that holds a pointing
//   double X Y Z DEPTH   as above, for a mount's report: the bits of three f64, 16 hexadecimal digits each
//   single X Y Z DEPTH   as above, with three f32, 8 digits each
//   line HEX DEPTH       as above, for a catalogue line, its line feed included
//   name ID              the name of an identifier
//   id NAME              the identifier of a name
//   corners ID           nine numbers: v0 v1 v2, each x y z
//   rows HEX             depth, budget and count of a region file, and the numbers of its rows
//   file DEPTH BUDGET N1 N2 ..   the region file of rows of five numbers each, in hexadecimal digits
//   grouped DEPTH BUDGET N1 N2 ..   the same as a grouped file
//   togrouped HEX        a region file in the grouped style, in hexadecimal digits
//   toplain HEX          a region file in the plain style
//   holds HEX X Y Z      whether the region of a file holds a pointing: yes or no
//   cover HEX            the lines that program cover prints for a file, joined by `|`
//
// A refusal is answered `refused N`, a malformed line `usage`. Words are parted by one blank; numbers are decimal, X Y Z with an
// optional minus. HEX is a file or a line in hexadecimal digits, or `-` for one with no bytes. The letters of hexadecimal digits are small or capital.
// A line ends with a line feed; the last line may do without. HEX may have any length. A line has at most 65536 bytes, of which HEX counts for 21018 at most;
// a longer one is malformed. Where a read or a write fails, standard error says so and no further line is answered. There are no arguments: with `--help`, or
// with any, it prints how it is called.
#![tactic(auto)]

use streams::Streams;

// Kept: like archive's, but for the usage and the commands; a function of both would hold no more than these.
fn main(rt: HostRuntime) {
    let streams = Streams::of(&rt);
    if streams::has_no_argument(&rt, streams, b"usage: query < LINES\n") {
        query_commands::answer_lines(streams);
    }
}
