// The lines of a cover, for program cover and for the command of query.
ghost use Rattle.std.specs.Prelude.{◌≡◌};
ghost use Rattle.answer.specs.Calls.{answer_of};
ghost use Rattle.answer.specs.Answer.{gives};
ghost use Rattle.region.specs.Reader.{File, Accepted};
ghost use Rattle.print.specs.Lost.{RefusedAsRead};

use crate::{Fault, Output};
use answer::Refusal;
use covering::Counts;
use limits::MAX_BUDGET;
use region_records::Settings;
use std::fmt;
use std::fmt::Write;

// The elements of two lists of pairs, each within the largest budget.
pub const RANGES_LENGTH: usize = 4 * MAX_BUDGET as usize;

// The lines of the cover of a file, with `separator` between them; or its refusal.
pub fn lines(out: &mut Output, file: &[u8], separator: char) -> Result<(), Fault>
    ensures { RefusedAsRead file.now result out.old.end out.new.end }
{
    with_heads(
        out,
        file,
        move |out, letter| write!(out, "{separator}{} ", char::from(letter)),
    )
}

// As above, with the byte `separator` between the lines.
pub fn lines_by_byte(out: &mut Output, file: &[u8], separator: u8) -> Result<(), Fault>
    ensures { RefusedAsRead file.now result out.old.end out.new.end }
{
    with_heads(out, file, move |out, letter| {
        out.bytes(&[separator, letter, b' '])
    })
}

// As above; `head` writes what stands before a range, given the letter of its list.
fn with_heads<F: Fn(&mut Output, u8) -> fmt::Result + Copy>(
    out: &mut Output,
    file: &[u8],
    head: F,
) -> Result<(), Fault>
    requires { F.IsAlwaysCallable head }
    ensures { RefusedAsRead file.now result out.old.end out.new.end }
{
    let mut lists = [0u64; RANGES_LENGTH];
    let counts = htm::cover(file, &mut lists)?;
    accepted(out, file, counts, &lists, head)
}

// The lines of a file that is accepted.
fn accepted<F: Fn(&mut Output, u8) -> fmt::Result + Copy>(
    out: &mut Output,
    file: &[u8],
    counts: Counts,
    lists: &[u64; RANGES_LENGTH],
    head: F,
) -> Result<(), Fault>
    requires { F.IsAlwaysCallable head }
{
    let settings = settings_of(file)?;
    let inner = inner_start(settings.budget);
    first_line(out, settings.depth, counts)?;
    named(out, head, b'o', pairs(lists, 0, counts.outer))?;
    named(out, head, b'i', pairs(lists, inner, counts.inner))?;
    out.write_str("\n")?;
    Ok(())
}

// Depth and budget of a file that is accepted: they stand in its header, and no other record is read for them.
fn settings_of(file: &[u8]) -> Result<Settings, Refusal>
    ensures { (x : File) → Accepted file.now x
        → answer_of result ≡ gives (record { depth = x.depth; budget = x.budget }) }
{
    region_records::header_in(file)
}

fn first_line(out: &mut Output, depth: u32, counts: Counts) -> fmt::Result {
    write!(
        out,
        "depth {depth} outer {} inner {} seen {} full {} partial {} swallowed {}",
        counts.outer, counts.inner, counts.seen, counts.full, counts.partial, counts.swallowed
    )
}

// The element of the lent list at which the inner list begins: twice the budget.
fn inner_start(budget: u32) -> usize {
    RANGES_LENGTH.min(2 * limits::budget_of(budget))
}

// The pairs of `count` ranges, from element `from` on, as far as the list has them.
// Kept: `pairs` of frames_walk asks that the list has so many; here that would need a law over `cover_answer`, to save one comparison.
fn pairs(lists: &[u64], from: usize, count: u64) -> &[[u64; 2]] {
    let (pairs, _) = lists.get(from..).unwrap_or(&[]).as_chunks::<2>();
    &pairs[..crate::least(count, pairs.len())]
}

// The ranges of a list by the names of their first and last trixel, each behind its head.
fn named<F: Fn(&mut Output, u8) -> fmt::Result + Copy>(
    out: &mut Output,
    head: F,
    letter: u8,
    ranges: &[[u64; 2]],
) -> fmt::Result
    requires { F.IsAlwaysCallable head }
{
    for [low, high] in ranges {
        head(out, letter)?;
        out.name(*low)?;
        out.write_str(" ")?;
        out.name(*high)?;
    }
    Ok(())
}
