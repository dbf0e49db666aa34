// The entries of an index, in lent memory: reading, storing, their order, searches, and how entries move when one is inserted. The rules stand
// in index/specs, the steps of the code in specs/Steps. Each contract holds of every list, index or not.
#![tactic(auto)]

ghost use Rattle.std.specs.Prelude.{◌≡◌, ◌+◌, ◌-◌, ◌*◌, ◌≤◌, cond, map, length, drop};
ghost use Rattle.answer.specs.Lent.{put};
ghost use Rattle.index.specs.Exposures.{IndexCapacity};
ghost use Rattle.index.specs.Entries.{Width, IndexLength, numbers, entry_at, count_in, entries_from, entries_in, is_owned, is_keyed};
ghost use Rattle.index.specs.Entries as rule;
ghost use Rattle.index_entries.specs.Steps.{Found, staying, raised};

use index::{Entry, INDEX_CAPACITY, Key, WIDTH};

// The order of the entries: by identifier, then by number, then by owner.
fn precedes(a: Entry, b: Entry) -> bool
    ensures { result ≡ rule.precedes a b }
{
    (a.id, a.number, a.owner) < (b.id, b.number, b.owner)
}

// Whether an entry is one of this owner.
pub fn is_owned(e: Entry, owner: u32) -> bool
    ensures { result ≡ is_owned owner e }
{
    e.owner == i64::from(owner)
}

// Whether an entry is that of the exposure with this key.
fn is_keyed(e: Entry, key: Key) -> bool
    ensures { result ≡ is_keyed key e }
{
    e.number == i64::from(key.number) && is_owned(e, key.owner)
}

// The element at which the entry at place i begins: before them all stands the count.
pub fn element_of(i: usize) -> usize
    requires { i ≤ IndexCapacity }
    ensures { result ≡ 1 + Width * i }
{
    1 + WIDTH * i
}

// The entry whose numbers begin at element k.
// Kept: the index is a list of numbers, and no array of entries, since htm_add, htm_remove and htm_index_entry are lent one.
pub fn entry_at(index: &[i64], k: usize) -> Entry
    requires { k + Width ≤ length index.now }
    ensures { result ≡ entry_at index.now k }
{
    Entry {
        id: index[k],
        number: index[k + 1],
        owner: index[k + 2],
        pointing: vector_products::vec_in(index, k + 3),
    }
}

// The entry at place i.
pub fn nth_entry(index: &[i64], i: usize) -> Entry
    requires { (i ≤ IndexCapacity) × (1 + Width * i + Width ≤ length index.now) }
    ensures { result ≡ entry_at index.now (1 + Width * i) }
{
    entry_at(index, element_of(i))
}

// Stores an entry from element k on.
pub fn store_entry(index: &mut [i64], k: usize, e: Entry)
    requires { k + Width ≤ length index.old }
    ensures { index.new ≡ put k (numbers e) index.old }
{
    index[k] = e.id;
    index[k + 1] = e.number;
    index[k + 2] = e.owner;
    vector_products::store(index, k + 3, e.pointing);
}

// How many entries there are: the count that the list says, as far as it is one.
pub fn count_in(index: &[i64]) -> usize
    requires { 1 ≤ length index.now }
    ensures { (result ≡ count_in index.now) × (result ≤ IndexCapacity) }
{
    index[0].clamp(0, INDEX_CAPACITY as i64) as usize
}

// The entries, each by its six numbers, as far as the count is one.
pub fn entries(index: &[i64]) -> &[[i64; WIDTH]]
    requires { IndexLength ≤ length index.now }
    ensures { map (λ e. entry_at e 0) result.now ≡ entries_in index.now }
{
    let (entries, _) = index[1..].as_chunks::<WIDTH>();
    &entries[..count_in(index)]
}

// Counts an entry where it is one of this owner.
fn count_if_owned(count: usize, e: Entry, owner: u32) -> usize
    requires { count ≤ IndexCapacity }
    ensures { (result ≡ cond (is_owned owner e) (count + 1) count) × (result ≤ count + 1) }
{
    count + usize::from(is_owned(e, owner))
}

// Goes over n entries for the one with this key: the place of the first; where none has it, how many are the owner's.
pub fn find(index: &[i64], n: usize, key: Key) -> Result<usize, usize>
    requires { (1 + Width * n ≤ length index.now) × (n ≤ IndexCapacity) }
    ensures { Found n key (entries_from n (drop 1 index.now)) result }
{
    let mut owned: usize = 0;
    let mut i: usize = 0;
    // Kept: two entries a turn, since a full index takes 0.8 µs so, and 1.3 µs with one a turn.
    while i + 1 < n {
        let e = nth_entry(index, i);
        if is_keyed(e, key) {
            return Ok(i);
        }
        let f = nth_entry(index, i + 1);
        if is_keyed(f, key) {
            return Ok(i + 1);
        }
        owned = count_if_owned(count_if_owned(owned, e, key.owner), f, key.owner);
        i += 2;
    }
    if n <= i {
        return Err(owned);
    }
    let e = nth_entry(index, i);
    if is_keyed(e, key) {
        return Ok(i);
    }
    Err(count_if_owned(owned, e, key.owner))
}

// Of n entries, those at the end that e precedes move up by one, the last one first. The result is the place that is free then.
// Kept: the moves by hand, as the library's `copy_within` needs memmove, and include/htm.h promises memcpy and memset alone.
pub fn make_gap(index: &mut [i64], n: usize, e: Entry) -> usize
    requires { (1 + Width + Width * n ≤ length index.old) × (n ≤ IndexCapacity) }
    ensures value { (result ≡ staying (rule.precedes e) (entries_from n (drop 1 index.old))) × (result ≤ n) }
    ensures index_after { index.new ≡ raised (1 + Width * result) index.old (Width * (n - result)) }
{
    for i in (0..n).rev() {
        let x = nth_entry(index, i);
        if !precedes(e, x) {
            return i + 1;
        }
        store_entry(index, element_of(i + 1), x);
    }
    0
}
