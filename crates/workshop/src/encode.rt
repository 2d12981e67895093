//! The run of `encode`.

ghost use Rattle.std.specs.Prelude.{◌≡◌, ◌⊎◌, None};
ghost use Rattle.std.specs.Bool.{OnTrue};
ghost use Rattle.std.specs.Io.KnownBytes.{IsAtEnd};
ghost use Rattle.pw_outside.specs.Ports.{CountsFault, Rose};
ghost use Rattle.pw_outside.specs.Reading.{Told};
ghost use Rattle.pic_raw.specs.Any.{pictures_of};
ghost use Rattle.run_encode.specs.Groups.{AreWords};
ghost use Rattle.run_encode.specs.Outputs.{outputs, CountsAllFaults, ExtendsAll};
ghost use Rattle.workshop.specs.Status.{is_done, is_read_fault, is_settled, is_write_fault, usage_of};
ghost use Rattle.workshop.specs.Encoding.{status_of, AnswersEncode, HoldsHeadline, CompletesEncode};

use crate::status::Status;
use pw_outside::{ByteSink, ByteSource};
use run_encode::{EncodeEnd, EncodeWords, encode_run};
use std::alloc::Global;

/// The status of a run's outcome.
fn status_of(end: EncodeEnd) -> Status
    ensures { result ≡ status_of end }
{
    match end {
        EncodeEnd::Done => Status::Done,
        EncodeEnd::NoMemory => Status::NoMemory,
        EncodeEnd::ReadFault => Status::ReadFault,
        EncodeEnd::WriteFault => Status::WriteFault,
        EncodeEnd::BadPictures { kind, place } => Status::BadPictures { kind, place },
        EncodeEnd::TooSmall { frame, least } => Status::TooSmall { frame, least },
        EncodeEnd::LayersFull { frame } => Status::LayersFull { frame },
    }
}

/// Reads pictures; writes a movie of them, a proof that each choice is best, and a line for each frame.
pub(crate) fn encode<S: ByteSource, K: ByteSink>(
    alloc: Global,
    words: &EncodeWords,
    pictures: &mut S,
    out: &mut K,
    cert: &mut K,
    text: &mut K,
) -> Status
    requires words { AreWords words.now }
    ensures answer { Told (S.left pictures.old) (λ bytes.
        AnswersEncode words.now (pictures_of words.now.raw bytes) result
        (outputs K.held K.taken out.old cert.old text.old) (outputs K.held K.taken out.new cert.new text.new)) }
    ensures headline { Told (S.left pictures.old) (λ bytes.
        HoldsHeadline words.now (pictures_of words.now.raw bytes) result
        (outputs K.held K.taken out.old cert.old text.old) (outputs K.held K.taken out.new cert.new text.new)) }
    ensures complete { Told (S.left pictures.old) (λ bytes. (Rose (S.faults pictures.old) (S.faults pictures.new) → ⊥)
        → (Rose (K.faults out.old) (K.faults out.new) ⊎ Rose (K.faults cert.old) (K.faults cert.new)
        ⊎ Rose (K.faults text.old) (K.faults text.new) → ⊥)
        → CompletesEncode words.now (pictures_of words.now.raw bytes) result) }
    ensures usage { usage_of result ≡ None }
    ensures extends { ExtendsAll (outputs K.held K.taken out.old cert.old text.old)
        (outputs K.held K.taken out.new cert.new text.new) }
    ensures settled { OnTrue (is_settled result)
        ((K.settled out.new ≡ K.taken out.new) × (K.settled cert.new ≡ K.taken cert.new)
        × (K.settled text.new ≡ K.taken text.new)) }
    ensures end { OnTrue (is_done result) (IsAtEnd (S.left pictures.new)) }
    ensures read { CountsFault (S.faults pictures.old) (S.faults pictures.new) (is_read_fault result) }
    ensures write { CountsAllFaults K.faults out.old cert.old text.old out.new cert.new text.new
        (is_write_fault result) }
{
    status_of(encode_run(alloc, words, pictures, out, cert, text))
}
