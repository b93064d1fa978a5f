//! The tests of the service over both keepers, and of the crates that open, migrate and run stores. They run the same
//! turns over lists and over tables. They also show what no script of `tests/` can: readers and writers that fail at
//! one call, the order of calls, and a disk that loses everything that was not synced. They are in a crate of their own
//! next to `pawn_tests`, so that the two can be proved in parallel.
#![tactic(auto)]

#[cfg(test)]
mod disks;
#[cfg(test)]
mod host_tests;
#[cfg(test)]
mod index_tests;
#[cfg(test)]
mod move_tests;
#[cfg(test)]
mod program_tests;
