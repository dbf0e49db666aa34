// The exposure index: the rules in specs/, the laws in proofs/, the types that they name, and the two checks that all calls on an index share. Document 02, F-10
// and F-11.
#![tactic(auto)]

ghost use Rattle.std.specs.Prelude.{◌≡◌, ◌≤◌, ◌<◌, true, false, length};
ghost use Rattle.std.specs.Result.{MatchResult};
ghost use Rattle.index.specs.Exposures.{is_owner};
ghost use Rattle.index.specs.Entries.{IndexLength};

use answer::Refusal;
use vector::Vec3;

// The most entries that an index holds.
pub const INDEX_CAPACITY: usize = 2048;

// The most entries of one owner.
pub const OWNER_CAPACITY: usize = 1024;

// How many owners there are: 0 and 1.
pub const OWNERS: u32 = 2;

// How many numbers an entry has.
pub const WIDTH: usize = 6;

// The fewest elements of a list that is lent for an index: its count, and then the entries.
pub const INDEX_LENGTH: usize = 1 + WIDTH * INDEX_CAPACITY;

// An exposure as it stands in the index: its identifier at depth 12, its number, its owner and its pointing.
#[derive(Clone, Copy)]
pub struct Entry {
    pub id: i64,
    pub number: i64,
    pub owner: i64,
    pub pointing: Vec3,
}

// Owner and number of an exposure, which identify it.
#[derive(Clone, Copy)]
pub struct Key {
    pub owner: u32,
    pub number: u32,
}

// Whether a number is an owner; refusal 18.
// Kept: a number and no type of two values, since htm_add, htm_remove, htm_frames and htm_trial are handed any number, and answer 18 by `is_owner`.
pub fn check_owner(owner: u32) -> Result<(), Refusal>
    ensures { MatchResult result (λ _. is_owner owner ≡ true) (λ r. (r ≡ Refusal.Owner) × (is_owner owner ≡ false)) }
{
    if OWNERS <= owner {
        return Err(Refusal::Owner);
    }
    Ok(())
}

// Whether a list that is lent for an index is long enough; refusal 10.
pub fn check_length(index: &[i64]) -> Result<(), Refusal>
    ensures { MatchResult result (λ _. IndexLength ≤ length index.now) (λ r. (r ≡ Refusal.Space) × (length index.now < IndexLength)) }
{
    if index.len() < INDEX_LENGTH {
        return Err(Refusal::Space);
    }
    Ok(())
}
