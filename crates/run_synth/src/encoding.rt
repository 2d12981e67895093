//! Encoding synthetic pictures in memory.

ghost use Rattle.std.specs.Prelude.{◌≡◌, IfOk};
ghost use Rattle.run_encode.specs.Groups.{AreWords};
ghost use Rattle.run_synth.specs.Synthesis.{AreSynthWords, encode_words, synthetic_in};
ghost use Rattle.run_synth.specs.inner.Parts.{AreCoded};

use crate::end::SynthEnd;
use crate::memory::Memory;
use crate::ports::Input;
use crate::words::SynthWords;
use pic_synth::{Synthetic, SyntheticSource, synthetic_is_meant};
use pic_y4m::Head;
use pr_quant::Matrix;
use pw_planes::{AlphaKind, Chroma, Depth, Interlace};
use run_encode::{EncodeEnd, EncodeWords, encode_run};
use std::alloc::Global;

/// The files that encoding wrote.
#[derive(Drop)]
pub(crate) struct Files {
    pub(crate) movie: Memory,
    pub(crate) proof: Memory,
    pub(crate) text: Memory,
}

/// An outcome and its text.
#[derive(Drop)]
pub(crate) struct Said {
    pub(crate) end: SynthEnd,
    pub(crate) text: Memory,
}

/// The result of encoding.
#[derive(Drop)]
pub(crate) enum Coded {
    /// All pictures were encoded.
    Whole(Files),
    /// Encoding was refused.
    Cut(Said),
    /// Memory ran out.
    NoMemory,
}

/// The parameters of the pictures.
pub(crate) fn synthetic_in(words: &SynthWords) -> Synthetic
    ensures { result ≡ synthetic_in words.now }
{
    Synthetic {
        width: words.width,
        height: words.height,
        frames: words.frames,
        seed: words.seed,
    }
}

/// The options that the pictures are encoded with.
fn encode_words(words: &SynthWords) -> EncodeWords
    requires { AreSynthWords words.now }
    ensures value { result ≡ encode_words words.now }
    ensures limits { AreWords result }
{
    EncodeWords {
        budget: words.budget,
        lo: 1,
        hi: 64,
        log2: 3,
        matrix: Matrix::Flat,
        raw: Some(Head {
            width: words.width,
            height: words.height,
            chroma: Chroma::C422,
            depth: Depth::D10,
            alpha: AlphaKind::Absent,
            interlace: Interlace::Progressive,
            num: 25,
            den: 1,
        }),
        group: 1,
        proof: 2,
    }
}

/// Encodes the pictures.
pub(crate) fn encode(alloc: Global, words: &SynthWords) -> Coded
    requires { AreSynthWords words.now }
    ensures { AreCoded words.now result }
{
    synthetic_is_meant();
    let mut pictures = Input::Synthetic(SyntheticSource::new(synthetic_in(words)));
    let mut movie = Memory::new(alloc);
    let mut proof = Memory::new(alloc);
    let mut text = Memory::new(alloc);
    match encode_run(
        alloc,
        &encode_words(words),
        &mut pictures,
        &mut movie,
        &mut proof,
        &mut text,
    ) {
        EncodeEnd::Done => Coded::Whole(Files { movie, proof, text }),
        EncodeEnd::TooSmall { frame, least } => Coded::Cut(Said {
            end: SynthEnd::TooSmall { frame, least },
            text,
        }),
        EncodeEnd::LayersFull { frame } => Coded::Cut(Said {
            end: SynthEnd::LayersFull { frame },
            text,
        }),
        // A sink in memory fails only if memory runs out.
        EncodeEnd::NoMemory | EncodeEnd::WriteFault => Coded::NoMemory,
        // The source of the pictures never fails, and its bytes have no error.
        EncodeEnd::ReadFault | EncodeEnd::BadPictures { .. } => unreachable!(),
    }
}
