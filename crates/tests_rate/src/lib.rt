//! Tests of tables, the best choice and its proofs, over public calls alone. They stand in a library of their own, since a crate with tests is proved twice.
#![tactic(auto)]

#[cfg(test)]
mod build;
#[cfg(test)]
mod cert;
#[cfg(test)]
mod check;
#[cfg(test)]
mod layers;
#[cfg(test)]
mod least;
#[cfg(test)]
mod search;
#[cfg(test)]
mod table;
#[cfg(test)]
mod table_writing;
