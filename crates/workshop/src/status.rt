//! The status of a run.

use pcm_track::SoundKind;
use pic_y4m::PictureKind;
use pr_head::FrameKind;
use qt_tables::MovieKind;
use rate_table::ProofKind;
use std::fmt;

/// The kinds of errors of the command-line words.
#[derive(Clone, Copy, Debug, PartialEq, Eq)]
pub enum UsageKind {
    /// There are no words.
    NoCommand,
    /// The first word isn't the name of a command.
    UnknownCommand,
    /// A word begins with `--` and isn't an option of the command.
    UnknownOption,
    /// The option was given before.
    RepeatedOption,
    /// The value isn't one of the option's, or the operand isn't a number in its range.
    BadValue,
    /// An operand too many.
    ExtraOperand,
    /// Too few operands. The word number is the number of words.
    MissingOperand,
    /// A required option is missing. The word number is the number of words.
    MissingOption,
    /// Values that contradict each other. The word number is the number of words.
    Conflict,
}

/// The status of a run.
#[derive(Clone, Copy, Debug, PartialEq, Eq)]
pub enum Status {
    /// The run is complete, and its input was read to its end.
    Done,
    /// The words aren't in the grammar: the kind of the first error, and the number of its word.
    Usage {
        kind: UsageKind,
        word: usize,
    },
    /// Memory ran out.
    NoMemory,
    /// A port that the command reads failed.
    ReadFault,
    /// A port that the command writes failed.
    WriteFault,
    /// The pictures' first error, at byte `place`.
    BadPictures {
        kind: PictureKind,
        place: u64,
    },
    /// No choice fits for the group that begins at `frame`; the smallest choice has `least` bytes.
    TooSmall {
        frame: u32,
        least: u64,
    },
    /// The table of the group that begins at `frame` has more than 2^25 pairs in its Pareto frontiers; the table of
    /// `plan` is frame 0.
    LayersFull {
        frame: u32,
    },
    /// The movie's first error, at byte `place`.
    BadMovie {
        kind: MovieKind,
        place: u64,
    },
    /// The first error of sample `sample`, counted from 0, at byte `place` of the sample.
    BadFrame {
        sample: u32,
        kind: FrameKind,
        place: u64,
    },
    /// The first error of the table or the proof, at byte `place`.
    BadProof {
        kind: ProofKind,
        place: u64,
    },
    /// The proof fails `clause` first, at frame `frame`, counted from 0.
    Refused {
        frame: u32,
        clause: u8,
    },
    /// The WAV's first error, at byte `place`.
    BadSound {
        kind: SoundKind,
        place: u64,
    },
}

impl Status {
    ghost use Rattle.std.specs.Prelude.{◌≡◌};
    ghost use Rattle.workshop.specs.Status.{code_of};

    /// The exit status of the program.
    pub fn code(&self) -> u8
        ensures { result ≡ code_of self.now }
    {
        match self {
            Status::Done => 0,
            Status::Usage { .. } => 1,
            Status::NoMemory => 2,
            Status::ReadFault => 3,
            Status::WriteFault => 4,
            Status::BadPictures { .. } => 5,
            Status::TooSmall { .. } => 6,
            Status::LayersFull { .. } => 7,
            Status::BadMovie { .. } => 8,
            Status::BadFrame { .. } => 9,
            Status::BadProof { .. } => 10,
            Status::Refused { .. } => 11,
            Status::BadSound { .. } => 13,
        }
    }
}

/// The line of the status, without its line feed; `Done` has none.
impl fmt::Display for Status {
    fn fmt<W: fmt::Write>(&self, f: &mut fmt::Formatter<W>) -> fmt::Result {
        match self {
            Status::Done => Ok(()),
            Status::Usage { kind, word } => write!(f, "usage: {kind:?} at word {word}"),
            Status::NoMemory => write!(f, "no memory"),
            Status::ReadFault => write!(f, "read fault"),
            Status::WriteFault => write!(f, "write fault"),
            Status::BadPictures { kind, place } => write!(f, "pictures: {kind:?} at {place}"),
            Status::TooSmall { frame, least } => write!(
                f,
                "frame {frame}: no choice fits, least is {least}"
            ),
            Status::LayersFull { frame } => write!(f, "frame {frame}: too many pairs"),
            Status::BadMovie { kind, place } => write!(f, "movie: {kind:?} at {place}"),
            Status::BadFrame {
                sample,
                kind,
                place,
            } => write!(f, "sample {sample}: {kind:?} at {place}"),
            Status::BadProof { kind, place } => write!(f, "proof: {kind:?} at {place}"),
            Status::Refused { frame, clause } => write!(
                f,
                "frame {frame}: refused by clause {clause}"
            ),
            Status::BadSound { kind, place } => write!(f, "sound: {kind:?} at {place}"),
        }
    }
}
