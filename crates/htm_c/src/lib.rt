// The archive that a host in C links, libhtm: the exported calls, each with the clauses of the library's call that it makes.
#![tactic(auto)]

pub mod from_c;
pub mod index_from_c;
pub mod trial_from_c;
