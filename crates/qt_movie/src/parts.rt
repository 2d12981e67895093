//! The atoms of a track that describe its pictures.

ghost use Rattle.std.specs.Prelude.{◌≡◌, ◌≤◌, length, IfOk, IfSome, false};
ghost use Rattle.pw_outside.specs.Ports.{CountsFault};
ghost use Rattle.pw_outside.specs.Reading.{Answers, Told};
ghost use Rattle.qt_tables.specs.Faults.{told_fault, is_failed, is_out_of_memory};
ghost use Rattle.qt_movie.specs.Movie.{parts_in};
ghost use Rattle.qt_movie.specs.Ranges.{PartsLie};

use pw_outside::ByteStore;
use qt_atoms::{Atom, find};
use qt_tables::MovieFault;

/// The atoms of a track that describe its pictures: media, handler, media information, sample table and
/// descriptions.
#[derive(Clone, Copy, Debug, PartialEq, Eq)]
pub struct Parts {
    pub mdia: Atom,
    pub hdlr: Atom,
    pub minf: Atom,
    pub stbl: Atom,
    pub stsd: Atom,
}

/// The atoms of a track that describe its pictures; `None` if one is missing.
#[tactic(auto, unfolding(crate::specs::Movie::parts_in, pw_outside::specs::Reading::bind))]
pub fn parts_of<M: ByteStore>(store: &mut M, trak: &Atom) -> Result<Option<Parts>, MovieFault>
    requires order { trak.now.body ≤ trak.now.end }
    requires inside { Told (M.bytes store.old) (λ file. trak.now.end ≤ length file) }
    ensures value { Told (M.bytes store.old) (λ file. Answers told_fault (λ x. x) result (parts_in file trak.now)) }
    ensures lie { IfOk result (λ found. IfSome found (PartsLie trak.now.body trak.now.end)) }
    ensures bytes { M.bytes store.new ≡ M.bytes store.old }
    ensures cause { CountsFault (M.faults store.old) (M.faults store.new) (is_failed result) }
    // Takes no memory.
    ensures memory { is_out_of_memory result ≡ false }
{
    let mdia = match find(store, trak, *b"mdia")? {
        Some(mdia) => mdia,
        None => return Ok(None),
    };
    let hdlr = match find(store, &mdia, *b"hdlr")? {
        Some(hdlr) => hdlr,
        None => return Ok(None),
    };
    let minf = match find(store, &mdia, *b"minf")? {
        Some(minf) => minf,
        None => return Ok(None),
    };
    let stbl = match find(store, &minf, *b"stbl")? {
        Some(stbl) => stbl,
        None => return Ok(None),
    };
    let stsd = match find(store, &stbl, *b"stsd")? {
        Some(stsd) => stsd,
        None => return Ok(None),
    };
    Ok(Some(Parts {
        mdia,
        hdlr,
        minf,
        stbl,
        stsd,
    }))
}
