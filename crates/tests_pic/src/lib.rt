//! Tests of pictures and monitors, over public calls alone. They stand in a library of their own, since a crate with tests is proved twice.
#![tactic(auto)]

#[cfg(test)]
mod raw;
#[cfg(test)]
mod reports;
#[cfg(test)]
mod synth;
#[cfg(test)]
mod y4m;
