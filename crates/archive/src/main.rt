// An index of the exposures of two owners, kept while the program runs: answers command lines on standard input, one line each on standard output.
//
//   add OWNER NUMBER X Y Z   adds an exposure: ok, or refused N
//   remove OWNER NUMBER      removes an exposure: ok, or refused N
//   list OWNER               the owner's entries in their order, IDENTIFIER NUMBER OWNER X Y Z each, joined by `|`; `-` where there is none; or refused 18
//   list                     those of both owners
//   frames OWNER HEX         the owner's entries that a region holds: DELIVERED TESTS N1 N2 .., their count, how many point tests were made,
//                            and their numbers in the order of the entries; or refused N. HEX is a region file in hexadecimal digits, `-` an empty one
//   trial OWNER HEX D1 B1 D2 B2
//                            a region under two settings, a depth and a budget each, which stand in for those of the file: U1 H1 X1 O1 I1 U2 H2 X2 O2
//                            I2 CHOICE. Of each setting how many of the owner's entries are delivered unchecked, tested and held, and tested and discarded,
//                            and how many ranges its outer and its inner list have; the choice, 1 or 2, is the one whose outer list spans the smaller share
//                            of the sky, 1 if equal. Then `|LOW HIGH` for each range of that list, identifiers at its depth. Or refused N
//
// The index begins empty. A malformed line is answered `usage`. Words are parted by one blank; numbers are decimal, X Y Z with an optional minus, the
// others without a sign, all of 32 bits. A line ends with a line feed; the last line may do without. HEX may have any length. A line has at most
// 65536 bytes, of which HEX counts for 21018 at most; a longer one is malformed. Where a read or a write fails, standard error says so and no further line is
// answered. There are no arguments: with `--help`, or with any, it prints how it is called.
#![tactic(auto)]

use streams::Streams;

fn main(rt: HostRuntime) {
    let streams = Streams::of(&rt);
    if streams::has_no_argument(&rt, streams, b"usage: archive < LINES\n") {
        archive_commands::answer_lines(streams);
    }
}
