// The calls on an index of exposures for a host in C: each is a call of the crate, with a number for its answer. None has a `requires`.
// A list is passed as a pointer and its number of elements: include/htm.h.
ghost use Rattle.std.specs.Prelude.{◌≡◌};
ghost use Rattle.index.specs.Exposures.{key, exposure};
ghost use Rattle.index.specs.Answers.{begin_answer, begin_after, add_answer, add_after, remove_answer, remove_after, count_answer};
ghost use Rattle.htm_abi.specs.Values.{number_for_c, status_of, found_for_c};
ghost use Rattle.htm.specs.CalledFromC.{entry_for_c, entry_after_c, FramesCallC};

use answer::Refusal;
use frames::FRAME_COUNTS;
use index::WIDTH;

// Makes a list an empty index: 0, or minus the number of the refusal.
#[unsafe(no_mangle)]
pub extern "C" fn htm_index_begin(index: &mut [i64]) -> i64
    ensures value { result ≡ status_of (begin_answer index.old) }
    ensures index_after { index.new ≡ begin_after index.old }
{
    htm_abi::status(crate::index_begin(index))
}

// Adds an exposure of an owner: 0, or minus the number of the refusal.
#[unsafe(no_mangle)]
pub extern "C" fn htm_add(index: &mut [i64], owner: u32, number: u32, x: i32, y: i32, z: i32) -> i64
    ensures value { result ≡ status_of (add_answer (exposure owner number x y z) index.old) }
    ensures index_after { index.new ≡ add_after (exposure owner number x y z) index.old }
{
    htm_abi::status(crate::add(index, owner, number, x, y, z))
}

// Removes an exposure of an owner: 0, or minus the number of the refusal.
#[unsafe(no_mangle)]
pub extern "C" fn htm_remove(index: &mut [i64], owner: u32, number: u32) -> i64
    ensures value { result ≡ status_of (remove_answer (key owner number) index.old) }
    ensures index_after { index.new ≡ remove_after (key owner number) index.old }
{
    htm_abi::status(crate::remove(index, owner, number))
}

// How many entries there are, of both owners, or minus the number of the refusal.
#[unsafe(no_mangle)]
pub extern "C" fn htm_index_count(index: &[i64]) -> i64
    ensures { result ≡ number_for_c (count_answer index.now) }
{
    htm_abi::number_or_minus(crate::index_count(index))
}

// The entry at a place: 1, with its six numbers at the beginning of `out`; 0 where there is none; or minus the number of the refusal, 10 also where there is an
// entry and `out` has fewer elements.
// Kept: a match, here and in `htm_frames`, as in from_c.rt: with `?` each was two functions, the second with the same clauses of its lists once more.
#[unsafe(no_mangle)]
pub extern "C" fn htm_index_entry(index: &[i64], place: u32, out: &mut [i64]) -> i64
    ensures value { result ≡ found_for_c (entry_for_c place index.now out.old) }
    ensures out_after { out.new ≡ entry_after_c place index.now out.old }
{
    match crate::index_entry(index, place) {
        Ok(Some(e)) => {
            if out.len() < WIDTH {
                return htm_abi::minus(Refusal::Space.number());
            }
            index_entries::store_entry(out, 0, e);
            1
        }
        Ok(None) => 0,
        Err(r) => htm_abi::minus(r.number()),
    }
}

// The frames of a region: the numbers delivered, from element 0 of `numbers` on, the cover's lists in `ranges`, and the counts of the numbers and of the tests
// at the beginning of `counts`: 0, or minus the number of the refusal, 10 also where `counts` has fewer elements.
#[unsafe(no_mangle)]
pub extern "C" fn htm_frames(
    index: &[i64],
    owner: u32,
    file: &[u8],
    ranges: &mut [u64],
    numbers: &mut [u32],
    counts: &mut [u64],
) -> i64
    ensures { FramesCallC owner index.now file.now ranges.old numbers.old counts.old
        result ranges.new numbers.new counts.new }
{
    if counts.len() < FRAME_COUNTS {
        return htm_abi::minus(htm_abi::owner_refusal_or_space(owner, file).number());
    }
    match crate::frames(index, owner, file, ranges, numbers) {
        Ok(r) => {
            htm_abi::put_frames(counts, r);
            0
        }
        Err(r) => htm_abi::minus(r.number()),
    }
}
