//! The tests of the crates that do not depend on a store. Each public call that allocates memory is run once with
//! enough memory, and its answer is checked. The tests are in a crate of their own, with a file for each tested crate,
//! so that the tested crates are not proved again when a test changes. The tests of the other crates are in
//! `pawn_store_tests`.
#![tactic(auto)]

// The text of a book: the header, followed by these rows.
#[cfg(test)]
macro_rules! book_text {
    ($rows:literal) => {
        concat!(
            "row,c1,c2,c3,c4,c5,c6,c7,c8,c9,c10,c11,c12,c13,c14\n",
            $rows
        )
    };
}

#[cfg(test)]
mod acting;
#[cfg(test)]
mod book_tests;
#[cfg(test)]
mod csv_tests;
#[cfg(test)]
mod debt_tests;
#[cfg(test)]
mod pledge_tests;
#[cfg(test)]
mod terms_tests;
#[cfg(test)]
mod wire_tests;
