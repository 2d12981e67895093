//! Tests of the ProRes crates, over public calls alone. They stand in a library of their own, since a crate with tests is proved twice.
#![tactic(auto)]

#[cfg(test)]
mod alpha;
#[cfg(test)]
mod codes;
#[cfg(test)]
mod coeff;
#[cfg(test)]
mod dct;
#[cfg(test)]
mod frame;
#[cfg(test)]
mod geom;
#[cfg(test)]
mod head;
#[cfg(test)]
mod pieces;
#[cfg(test)]
mod quant;
