//! Helpers of the gate's programs of cases: bytes in hexadecimal, printed texts on one line, and sinks in memory.
#![tactic(auto)]

ghost use Rattle.std.specs.Prelude.{◌≤◌};

use pw_outside::{MemSink, NoMemory};
use std::alloc::Global;
use std::io;

/// Longer byte strings are printed as their length and a hash.
const LONG: usize = 600;

/// The bytes of a word in hexadecimal; a lone dash is no bytes.
pub fn bytes_of(alloc: Global, word: &[u8]) -> io::Result<Vec<u8>> {
    if word == b"-".as_slice() {
        return Ok(Vec::new(alloc));
    }
    match hex::decode(alloc, word) {
        Ok(bytes) => Ok(bytes),
        Err(_) => Err(io::Error::from(io::ErrorKind::InvalidData)),
    }
}

/// The bytes in hexadecimal; a lone dash if there are none.
pub fn word_of(alloc: Global, bytes: &[u8]) -> io::Result<String> {
    if bytes.is_empty() {
        return Ok("-".to_string(alloc)?);
    }
    Ok(hex::encode(alloc, bytes)?)
}

/// Appends bytes in hexadecimal.
pub fn put_bytes(text: &mut Vec<u8>, bytes: &[u8]) -> Result<(), NoMemory> {
    for byte in bytes {
        let mut digits = [0; 2];
        let _fits = hex::encode_to_slice([*byte], &mut digits);
        if text.extend_from_slice(&digits).is_err() {
            return Err(NoMemory);
        }
    }
    Ok(())
}

/// The hash of no bytes (FNV-1a, 64 bits).
pub const HASH_OF_NONE: u64 = 0xcbf2_9ce4_8422_2325;

/// The hash `hash`, continued over `bytes`.
pub fn hash_on(hash: u64, bytes: &[u8]) -> u64 {
    let mut hash = hash;
    for byte in bytes {
        hash = (hash ^ u64::from(*byte)).wrapping_mul(0x100_0000_01b3);
    }
    hash
}

/// The hash of bytes.
pub fn hash_of(bytes: &[u8]) -> u64 {
    hash_on(HASH_OF_NONE, bytes)
}

/// The bytes in hexadecimal; for more than 600 their number and a hash.
pub fn hashed_of(alloc: Global, bytes: &[u8]) -> io::Result<String> {
    if bytes.len() <= LONG {
        return word_of(alloc, bytes);
    }
    let hash = hash_of(bytes);
    Ok(format!(in alloc; "{}:{hash:016x}", bytes.len())?)
}

/// A printed text on one line, with `\n` for each line feed; a lone dash if it is empty.
pub fn text_line(alloc: Global, text: &[u8]) -> io::Result<String> {
    if text.is_empty() {
        return Ok("-".to_string(alloc)?);
    }
    let mut line = String::new(alloc);
    for part in String::from_utf8_lossy(alloc, text)?.lines() {
        line.push_str(part)?;
        line.push_str("\\n")?;
    }
    Ok(line)
}

/// A list with the failing call, or without any.
pub fn calls_of(alloc: Global, call: Option<u64>) -> io::Result<Vec<u64>> {
    let mut calls = Vec::new(alloc);
    if let Some(call) = call {
        calls.push(call)?;
    }
    Ok(calls)
}

/// A sink that takes at most `step` bytes a call; call `call` fails.
pub fn sink_of(alloc: Global, step: usize, call: Option<u64>) -> io::Result<MemSink>
    requires { 1 ≤ step }
{
    match MemSink::new(alloc, 0, step, calls_of(alloc, call)?) {
        Ok(sink) => Ok(sink),
        Err(_) => Err(io::Error::from(io::ErrorKind::OutOfMemory)),
    }
}
