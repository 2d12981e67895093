//! Laws of the definitions, independent of any program.

ghost use Rattle.rate_cert.specs.Laws.{NumberIsReadAgain, RecordIsReadAgain, HeadIsReadAgain, ProofIsReadAgain, RecordIsSpelled, HeadIsSpelled, ProofIsSpelled};

/// A LEB128 number that is written is read as that number, whatever follows it.
pub fn number_is_read_again()
    ensures { NumberIsReadAgain }
{}

/// A record that is written at a position where one may be is read as that record, in either format.
pub fn record_is_read_again()
    ensures { RecordIsReadAgain }
{}

/// A head that is written is read as that head, in either format.
pub fn head_is_read_again()
    ensures { HeadIsReadAgain }
{}

/// A proof that is written is read as that proof, in either format.
pub fn proof_is_read_again()
    ensures { ProofIsReadAgain }
{}

/// A record has one encoding in format 2, the one that is written; in its layers sizes rise and errors fall.
pub fn record_is_spelled()
    ensures { RecordIsSpelled }
{}

/// A head has one encoding in either format, the one that is written.
pub fn head_is_spelled()
    ensures { HeadIsSpelled }
{}

/// A valid proof has one encoding in format 2, the one that is written.
pub fn proof_is_spelled()
    ensures { ProofIsSpelled }
{}
