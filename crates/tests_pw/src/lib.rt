//! Tests of the I/O ports, texts, numbers, bits and planes, over public calls alone. They stand in a library of their own, since a crate with tests is proved twice.
#![tactic(auto)]

#[cfg(test)]
mod bits;
#[cfg(test)]
mod fields;
#[cfg(test)]
mod outside;
#[cfg(test)]
mod planes;
#[cfg(test)]
mod text;
