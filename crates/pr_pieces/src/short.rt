//! A short codeword.

/// A codeword of at most eight bits: its length, or 0 if the codeword is longer; its number; and its class, the
/// context of the next one.
#[derive(Clone, Copy)]
pub(crate) struct ShortWord {
    pub(crate) size: u8,
    pub(crate) number: u8,
    pub(crate) class: u8,
}
