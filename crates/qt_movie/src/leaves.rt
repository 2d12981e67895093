//! The atoms of a movie atom that contain no atoms.

ghost use Rattle.std.specs.Prelude.{◌≡◌, ◌<◌, ◌≤◌, ◌+◌, ◌^◌, ◌++◌, length, codes, IfOk, OnOk};
ghost use Rattle.qt_atoms.specs.Written.{atom, atom_of};
ghost use Rattle.qt_movie.specs.Bodies.{mvhd_body, mdhd_body, hdlr_body, vmhd_body, dref_body, dinf_nodes, nodes_bytes};
ghost use Rattle.qt_movie.specs.Trak.{volume_of, width_of, height_of, subtype_of, smhd_body, media_node, tkhd_body};

use crate::trak::{Media, Trak};
use pw_fields::{be16, be32};
use pw_outside::NoMemory;
use qt_atoms::AtomWriter;
use std::alloc::Global;

/// The identity matrix.
const UNIT_MATRIX: [u8; 36] = [
    0, 1, 0, 0, 0, 0, 0, 0, 0, 0, 0, 0, 0, 0, 0, 0, 0, 1, 0, 0, 0, 0, 0, 0, 0, 0, 0, 0, 0, 0, 0, 0,
    0x40, 0, 0, 0,
];

/// Appends an atom with this body.
#[tactic(auto, using(qt_atoms::proofs::WrittenAtoms::ended_atom))]
pub(crate) fn put_atom(atoms: &mut AtomWriter, kind: [u8; 4], body: &[u8]) -> Result<(), NoMemory>
    requires { length body.now + 8 < 2 ^ 32 }
    ensures atom { OnOk result (atoms.new ≡ atoms.old ++ atom kind body.now) }
    ensures size { OnOk result (length atoms.new ≡ length atoms.old + (length body.now + 8)) }
{
    let begun = atoms.begin(kind)?;
    atoms.bytes(body)?;
    atoms.end(begun);
    Ok(())
}

/// The body of an `mvhd`.
#[tactic(auto, unfolding(crate::specs::Bodies::mvhd_body))]
fn mvhd_body(
    alloc: Global,
    timescale: u32,
    duration: u32,
    next: u32,
) -> Result<AtomWriter, NoMemory>
    ensures body { IfOk result (λ body. body ≡ (mvhd_body timescale duration next)) }
    ensures size { IfOk result (λ body. length body ≡ 100) }
{
    let mut body = AtomWriter::new(alloc);
    body.bytes(&[0; 12])?;
    body.bytes(&be32(timescale))?;
    body.bytes(&be32(duration))?;
    body.bytes(&be32(0x0001_0000))?;
    body.bytes(&be16(0x0100))?;
    body.bytes(&[0; 10])?;
    body.bytes(&UNIT_MATRIX)?;
    body.bytes(&[0; 24])?;
    body.bytes(&be32(next))?;
    Ok(body)
}

/// Appends the `mvhd`.
pub(crate) fn put_mvhd(
    alloc: Global,
    atoms: &mut AtomWriter,
    timescale: u32,
    duration: u32,
    next: u32,
) -> Result<(), NoMemory>
    ensures atom { OnOk result (atoms.new ≡ atoms.old ++ atom (codes "mvhd") (mvhd_body timescale duration next)) }
    ensures size { OnOk result (length atoms.new ≡ length atoms.old + 108) }
{
    let body = mvhd_body(alloc, timescale, duration, next)?;
    put_atom(atoms, *b"mvhd", body.held())
}

/// The volume of a track, fixed-point with 8 fraction bits: 1 for sound.
fn volume_of(media: Media) -> u16
    ensures { result ≡ volume_of media }
{
    match media {
        Media::Video { .. } => 0,
        Media::Sound { .. } => 0x0100,
    }
}

fn width_of(media: Media) -> u16
    ensures { result ≡ width_of media }
{
    match media {
        Media::Video { width, .. } => width,
        Media::Sound { .. } => 0,
    }
}

fn height_of(media: Media) -> u16
    ensures { result ≡ height_of media }
{
    match media {
        Media::Video { height, .. } => height,
        Media::Sound { .. } => 0,
    }
}

/// The body of a `tkhd`. Width and height are fixed-point with 16 fraction bits.
#[tactic(auto, unfolding(crate::specs::Trak::tkhd_body))]
fn tkhd_body(alloc: Global, trak: &Trak) -> Result<AtomWriter, NoMemory>
    ensures body { IfOk result (λ body. body ≡ tkhd_body trak.now) }
    ensures size { IfOk result (λ body. length body ≡ 84) }
{
    let mut body = AtomWriter::new(alloc);
    body.bytes(&[0, 0, 0, 15])?;
    body.bytes(&[0; 8])?;
    body.bytes(&be32(trak.number))?;
    body.bytes(&[0; 4])?;
    body.bytes(&be32(trak.movie_duration))?;
    body.bytes(&[0; 12])?;
    body.bytes(&be16(volume_of(trak.media)))?;
    body.bytes(&[0; 2])?;
    body.bytes(&UNIT_MATRIX)?;
    body.bytes(&be32(u32::from(width_of(trak.media)) * 65536))?;
    body.bytes(&be32(u32::from(height_of(trak.media)) * 65536))?;
    Ok(body)
}

/// Appends the `tkhd`.
pub(crate) fn put_tkhd(alloc: Global, atoms: &mut AtomWriter, trak: &Trak) -> Result<(), NoMemory>
    ensures atom { OnOk result (atoms.new ≡ atoms.old ++ atom (codes "tkhd") (tkhd_body trak.now)) }
    ensures size { OnOk result (length atoms.new ≡ length atoms.old + 92) }
{
    let body = tkhd_body(alloc, trak)?;
    put_atom(atoms, *b"tkhd", body.held())
}

/// The body of an `mdhd`.
#[tactic(auto, unfolding(crate::specs::Bodies::mdhd_body))]
fn mdhd_body(alloc: Global, timescale: u32, duration: u32) -> Result<AtomWriter, NoMemory>
    ensures body { IfOk result (λ body. body ≡ (mdhd_body timescale duration)) }
    ensures size { IfOk result (λ body. length body ≡ 24) }
{
    let mut body = AtomWriter::new(alloc);
    body.bytes(&[0; 12])?;
    body.bytes(&be32(timescale))?;
    body.bytes(&be32(duration))?;
    body.bytes(&[0; 4])?;
    Ok(body)
}

/// Appends the `mdhd`.
pub(crate) fn put_mdhd(alloc: Global, atoms: &mut AtomWriter, trak: &Trak) -> Result<(), NoMemory>
    ensures atom { OnOk result (atoms.new ≡ atoms.old ++ atom (codes "mdhd") (mdhd_body trak.now.timescale trak.now.duration)) }
    ensures size { OnOk result (length atoms.new ≡ length atoms.old + 32) }
{
    let body = mdhd_body(alloc, trak.timescale, trak.duration)?;
    put_atom(atoms, *b"mdhd", body.held())
}

/// The body of an `hdlr`.
#[tactic(auto, unfolding(crate::specs::Bodies::hdlr_body))]
fn hdlr_body(alloc: Global, kind: [u8; 4], subtype: [u8; 4]) -> Result<AtomWriter, NoMemory>
    ensures body { IfOk result (λ body. body ≡ (hdlr_body kind subtype)) }
    ensures size { IfOk result (λ body. length body ≡ 25) }
{
    let mut body = AtomWriter::new(alloc);
    body.bytes(&[0; 4])?;
    body.bytes(&kind)?;
    body.bytes(&subtype)?;
    body.bytes(&[0; 13])?;
    Ok(body)
}

/// Appends an `hdlr` of this type and subtype.
pub(crate) fn put_hdlr(
    alloc: Global,
    atoms: &mut AtomWriter,
    kind: [u8; 4],
    subtype: [u8; 4],
) -> Result<(), NoMemory>
    ensures atom { OnOk result (atoms.new ≡ atoms.old ++ atom (codes "hdlr") (hdlr_body kind subtype)) }
    ensures size { OnOk result (length atoms.new ≡ length atoms.old + 33) }
{
    let body = hdlr_body(alloc, kind, subtype)?;
    put_atom(atoms, *b"hdlr", body.held())
}

/// Appends the `vmhd`.
#[tactic(auto, unfolding(crate::specs::Bodies::vmhd_body))]
fn put_vmhd(atoms: &mut AtomWriter) -> Result<(), NoMemory>
    ensures atom { OnOk result (atoms.new ≡ atoms.old ++ atom (codes "vmhd") vmhd_body) }
    ensures size { OnOk result (length atoms.new ≡ length atoms.old + 20) }
{
    put_atom(atoms, *b"vmhd", &[0, 0, 0, 1, 0, 0, 0, 0, 0, 0, 0, 0])
}

/// Appends the `smhd`.
#[tactic(auto, unfolding(crate::specs::Trak::smhd_body))]
fn put_smhd(atoms: &mut AtomWriter) -> Result<(), NoMemory>
    ensures atom { OnOk result (atoms.new ≡ atoms.old ++ atom (codes "smhd") smhd_body) }
    ensures size { OnOk result (length atoms.new ≡ length atoms.old + 16) }
{
    put_atom(atoms, *b"smhd", &[0; 8])
}

/// Appends the media information header of pictures or sound.
fn put_head(atoms: &mut AtomWriter, media: Media) -> Result<(), NoMemory>
    ensures atom { OnOk result (atoms.new ≡ atoms.old ++ atom_of (media_node media)) }
    ensures size { OnOk result (length atoms.new ≤ length atoms.old + 20) }
{
    match media {
        Media::Video { .. } => put_vmhd(atoms),
        Media::Sound { .. } => put_smhd(atoms),
    }
}

/// Appends the media information header of a track.
pub(crate) fn put_media_head(atoms: &mut AtomWriter, trak: &Trak) -> Result<(), NoMemory>
    ensures atom { OnOk result (atoms.new ≡ atoms.old ++ atom_of (media_node trak.now.media)) }
    ensures size { OnOk result (length atoms.new ≤ length atoms.old + 20) }
{
    put_head(atoms, trak.media)
}

/// The handler subtype of a media.
fn subtype_of(media: Media) -> [u8; 4]
    ensures { result ≡ subtype_of media }
{
    match media {
        Media::Video { .. } => *b"vide",
        Media::Sound { .. } => *b"soun",
    }
}

/// Appends the media handler of a track.
pub(crate) fn put_media_hdlr(
    alloc: Global,
    atoms: &mut AtomWriter,
    trak: &Trak,
) -> Result<(), NoMemory>
    ensures atom { OnOk result (atoms.new ≡ atoms.old ++ atom (codes "hdlr") (hdlr_body (codes "mhlr") (subtype_of trak.now.media))) }
    ensures size { OnOk result (length atoms.new ≡ length atoms.old + 33) }
{
    put_hdlr(alloc, atoms, *b"mhlr", subtype_of(trak.media))
}

/// Appends the `dref`: one entry, the same file.
#[tactic(auto, unfolding(crate::specs::Bodies::dref_body))]
fn put_dref(atoms: &mut AtomWriter) -> Result<(), NoMemory>
    ensures atom { OnOk result (atoms.new ≡ atoms.old ++ atom (codes "dref") dref_body) }
    ensures size { OnOk result (length atoms.new ≡ length atoms.old + 28) }
{
    let body = b"\x00\x00\x00\x00\x00\x00\x00\x01\x00\x00\x00\x0calis\x00\x00\x00\x01";
    put_atom(atoms, *b"dref", body)
}

/// Appends the `dinf`.
pub(crate) fn put_dinf(atoms: &mut AtomWriter) -> Result<(), NoMemory>
    ensures atom { OnOk result (atoms.new ≡ atoms.old ++ atom (codes "dinf") (nodes_bytes dinf_nodes)) }
    ensures size { OnOk result (length atoms.new ≡ length atoms.old + 36) }
{
    let begun = atoms.begin(*b"dinf")?;
    put_dref(atoms)?;
    atoms.end(begun);
    Ok(())
}
