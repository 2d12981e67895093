//! Tests of QuickTime movies and their sound, over public calls alone. They stand in a library of their own, since a crate with tests is proved twice.
#![tactic(auto)]

#[cfg(test)]
mod atoms;
#[cfg(test)]
mod movie;
#[cfg(test)]
mod pcm;
#[cfg(test)]
mod tables;
