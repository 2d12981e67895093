//! Decoding and checking the encoded files, in memory.

ghost use Rattle.std.specs.Prelude.{◌≡◌, ◌++◌, ℕ, IfOk, OnOk, [], Some, drop};
ghost use Rattle.pw_outside.specs.Reading.{bytes_of};
ghost use Rattle.run_decode.specs.Running.{pictures_line};
ghost use Rattle.run_look.specs.declared.end.LookEnd.TheVariants as ends;
ghost use Rattle.run_look.specs.Checking.{check_text};
ghost use Rattle.run_look.specs.Agreeing.{Checks};
ghost use Rattle.run_synth.specs.inner.Ports.{held_in, left_in};
ghost use Rattle.run_synth.specs.inner.Parts.{IsDecodable};

use crate::memory::Memory;
use crate::ports::{Input, Output};
use monitors::LevelMonitor;
use pw_outside::{CountSink, NoMemory, put_all};
use pw_planes::Depth;
use run_decode::{DecodeEnd, Form, decode_run, decoding_is_one};
use run_look::{LookEnd, agreeing_is_done_once, check_run};
use run_round::checked_is_checked_alone;
use std::alloc::Global;

/// Decodes a movie, counts its pictures, and appends the line with their number.
pub(crate) fn decode(alloc: Global, movie: &mut Memory, text: &mut Memory) -> Result<(), NoMemory>
    requires { (n : ℕ) × IsDecodable movie.old.bytes.items n }
    ensures bytes { movie.new.bytes.items ≡ movie.old.bytes.items }
    ensures text { OnOk result ((n : ℕ) → IsDecodable movie.old.bytes.items n
        → text.new.bytes.items ≡ text.old.bytes.items ++ pictures_line n) }
{
    decoding_is_one();
    let mut out = Output::Counted(CountSink::new());
    let mut line = Output::Held(Memory::new(alloc));
    let mut none: Vec<LevelMonitor> = Vec::new(alloc);
    match decode_run(
        alloc,
        movie,
        Depth::D10,
        Form::Raw,
        &mut out,
        &mut line,
        &mut none,
    ) {
        DecodeEnd::Done => {}
        // A sink in memory fails only if memory runs out.
        DecodeEnd::NoMemory | DecodeEnd::WriteFault => return Err(NoMemory),
        // A store in memory never fails, and the encoded movie has no error.
        DecodeEnd::ReadFault | DecodeEnd::BadMovie { .. } | DecodeEnd::BadFrame { .. } => {
            unreachable!()
        }
    }
    match put_all(text, line.bytes()) {
        Ok(()) => Ok(()),
        Err(_) => Err(NoMemory),
    }
}

/// Checks a proof with its movie and the pictures, and appends the line with the number of records.
pub(crate) fn check(
    alloc: Global,
    proof: &mut Input,
    pictures: &mut Input,
    movie: &mut Memory,
    text: &mut Memory,
) -> Result<(), NoMemory>
    requires { (n : ℕ) × Checks (bytes_of (left_in proof.old)) movie.old.bytes.items
        (bytes_of (left_in pictures.old)) ends.Done n }
    ensures { OnOk result ((n : ℕ)
        → Checks (bytes_of (left_in proof.old)) movie.old.bytes.items (bytes_of (left_in pictures.old)) ends.Done n
        → text.new.bytes.items ≡ text.old.bytes.items ++ check_text n) }
{
    checked_is_checked_alone();
    agreeing_is_done_once();
    match check_run(alloc, proof, pictures, movie, text) {
        LookEnd::Done => Ok(()),
        // A sink in memory fails only if memory runs out.
        LookEnd::NoMemory | LookEnd::WriteFault => Err(NoMemory),
        // Sources and stores in memory never fail, and the encoded files pass the check.
        LookEnd::ReadFault
        | LookEnd::BadPictures { .. }
        | LookEnd::BadMovie { .. }
        | LookEnd::BadFrame { .. }
        | LookEnd::BadProof { .. }
        | LookEnd::Refused { .. } => unreachable!(),
    }
}
