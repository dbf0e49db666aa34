// The calls on an index: it is begun, exposures are added and removed, the entries counted, and one read by its place. The rules stand in
// index/specs/Answers; they say what is done with every list, index or not.
#![tactic(auto)]

ghost use Rattle.std.specs.Prelude.{◌≡◌, ◌&&◌, ltb};
ghost use Rattle.answer.specs.Calls.{answer_of};
ghost use Rattle.index.specs.Exposures.{IndexCapacity, OwnerCapacity, key, exposed};
ghost use Rattle.index.specs.Entries.{entries_in, inserting};
ghost use Rattle.index.specs.Answers.{in_list, begin_answer, begin_after, add_answer, add_after, remove_answer, remove_after, count_answer, entry_answer};
ghost use Rattle.index.specs.Answers.{entry_given};
ghost use Rattle.index_calls.specs.Done.{Done};

use answer::Refusal;
use index::{Entry, INDEX_CAPACITY, Key, OWNER_CAPACITY, WIDTH};
use limits::MAX_DEPTH;
use vector::Vec3;

// Makes a list an empty index; refusal 10.
pub fn begin(index: &mut [i64]) -> Result<(), Refusal>
    ensures result_value { answer_of result ≡ begin_answer index.old }
    ensures index_after { index.new ≡ begin_after index.old }
{
    index::check_length(index)?;
    index[0] = 0;
    Ok(())
}

// Adds an exposure of an owner, by its number and its pointing; refusals 18, 8, 10, 15, 16.
pub fn add(index: &mut [i64], owner: u32, number: u32, p: Vec3) -> Result<(), Refusal>
    ensures result_value { answer_of result ≡ add_answer (exposed owner number p) index.old }
    ensures index_after { index.new ≡ add_after (exposed owner number p) index.old }
{
    index::check_owner(owner)?;
    let id = mesh_lookup::lookup(p, MAX_DEPTH)?;
    let e = Entry {
        id: id as i64,
        number: i64::from(number),
        owner: i64::from(owner),
        pointing: p,
    };
    insert(index, e, Key { owner, number })
}

// Whether there is a place for another entry, beside `owned` of its owner and n of both. In an index there is room wherever the owner has a place.
fn has_place(owned: usize, n: usize) -> bool
    ensures { result ≡ ltb owned OwnerCapacity && ltb n IndexCapacity }
{
    owned < OWNER_CAPACITY && n < INDEX_CAPACITY
}

// Inserts the entry of the exposure with this key; refusals 10, 15, 16.
fn insert(index: &mut [i64], e: Entry, key: Key) -> Result<(), Refusal>
    ensures { Done (in_list index.old (inserting key e (entries_in index.old)))
        index.old index.new result }
{
    index::check_length(index)?;
    let n = index_entries::count_in(index);
    let Err(owned) = index_entries::find(index, n, key) else {
        return Err(Refusal::Twice);
    };
    if !has_place(owned, n) {
        return Err(Refusal::Full);
    }
    let i = index_entries::make_gap(index, n, e);
    index_entries::store_entry(index, index_entries::element_of(i), e);
    index[0] = (n + 1) as i64;
    Ok(())
}

// Removes an exposure of an owner, by its number; refusals 18, 10, 17.
pub fn remove(index: &mut [i64], owner: u32, number: u32) -> Result<(), Refusal>
    ensures result_value { answer_of result ≡ remove_answer (key owner number) index.old }
    ensures index_after { index.new ≡ remove_after (key owner number) index.old }
{
    index::check_owner(owner)?;
    index::check_length(index)?;
    let n = index_entries::count_in(index);
    let Ok(i) = index_entries::find(index, n, Key { owner, number }) else {
        return Err(Refusal::Absent);
    };
    algebra::shift_down::<i64, WIDTH>(index, index_entries::element_of(i), WIDTH * (n - 1 - i));
    index[0] = (n - 1) as i64;
    Ok(())
}

// How many entries there are; refusal 10.
pub fn count(index: &[i64]) -> Result<u64, Refusal>
    ensures { answer_of result ≡ count_answer index.now }
{
    index::check_length(index)?;
    Ok(index_entries::count_in(index) as u64)
}

// The entry at a place, counted from 0, or that there is none; refusal 10.
pub fn entry(index: &[i64], place: u32) -> Result<Option<Entry>, Refusal>
    ensures { entry_given result ≡ entry_answer place index.now }
{
    index::check_length(index)?;
    let i = place as usize;
    if index_entries::count_in(index) <= i {
        return Ok(None);
    }
    Ok(Some(index_entries::nth_entry(index, i)))
}
