//! Tests of runs and the top call, over public calls alone. They stand in a library of their own, since a crate with tests is proved twice.
#![tactic(auto)]

#[cfg(test)]
mod decode;
#[cfg(test)]
mod encode;
#[cfg(test)]
mod look;
#[cfg(test)]
mod rescue;
#[cfg(test)]
mod status;
#[cfg(test)]
mod synth;
