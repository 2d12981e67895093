//! Writes the media description of a track.

ghost use Rattle.std.specs.Prelude.{◌≡◌, ◌≤◌, ◌+◌, ◌++◌, length, codes, IfOk, OnOk};
ghost use Rattle.qt_atoms.specs.Written.{atom};
ghost use Rattle.qt_movie.specs.declared.trak.Media.TheVariants as media;
ghost use Rattle.qt_movie.specs.Trak.{pictures_bytes, stsd_body};

use crate::leaves::put_atom;
use crate::trak::{Media, Trak};
use pw_fields::{be16, be32};
use pw_outside::NoMemory;
use qt_atoms::AtomWriter;
use std::alloc::Global;

/// The description of pictures after its kind.
#[tactic(auto, unfolding(crate::specs::Trak::pictures_bytes))]
fn pictures_of(alloc: Global, width: u16, height: u16, depth: u16) -> Result<AtomWriter, NoMemory>
    ensures bytes { IfOk result (λ bytes. bytes ≡ pictures_bytes width height depth) }
    ensures size { IfOk result (λ bytes. length bytes ≡ 78) }
{
    let mut bytes = AtomWriter::new(alloc);
    bytes.bytes(
        b"\x00\x00\x00\x00\x00\x00\x00\x01\x00\x00\x00\x00pwk0\x00\x00\x00\x00\x00\x00\x00\x00",
    )?;
    bytes.bytes(&be16(width))?;
    bytes.bytes(&be16(height))?;
    bytes.bytes(b"\x00\x48\x00\x00\x00\x48\x00\x00\x00\x00\x00\x00\x00\x01")?;
    bytes.bytes(&[0; 32])?;
    bytes.bytes(&be16(depth))?;
    bytes.bytes(&[0xff, 0xff])?;
    Ok(bytes)
}

/// The body of the `stsd` of pictures: one description.
fn pictures_body(
    alloc: Global,
    kind: [u8; 4],
    width: u16,
    height: u16,
    depth: u16,
) -> Result<AtomWriter, NoMemory>
    ensures body { IfOk result (λ body. body ≡ stsd_body (media.Video kind width height depth)) }
    ensures size { IfOk result (λ body. length body ≤ 94) }
{
    let bytes = pictures_of(alloc, width, height, depth)?;
    let mut body = AtomWriter::new(alloc);
    body.bytes(b"\x00\x00\x00\x00\x00\x00\x00\x01\x00\x00\x00\x56")?;
    body.bytes(&kind)?;
    body.bytes(bytes.held())?;
    Ok(body)
}

/// The body of the `stsd` of sound: one description. Its rate is fixed-point with 16 fraction bits.
#[tactic(auto, unfolding(crate::specs::Trak::sound_bytes))]
fn sound_body(alloc: Global, channels: u8, rate: u16) -> Result<AtomWriter, NoMemory>
    ensures body { IfOk result (λ body. body ≡ stsd_body (media.Sound channels rate)) }
    ensures size { IfOk result (λ body. length body ≤ 94) }
{
    let mut body = AtomWriter::new(alloc);
    body.bytes(b"\x00\x00\x00\x00\x00\x00\x00\x01\x00\x00\x00\x24sowt")?;
    body.bytes(b"\x00\x00\x00\x00\x00\x00\x00\x01\x00\x00\x00\x00\x00\x00\x00\x00")?;
    body.bytes(&be16(u16::from(channels)))?;
    body.bytes(b"\x00\x10\x00\x00\x00\x00")?;
    body.bytes(&be32(u32::from(rate) * 65536))?;
    Ok(body)
}

/// The body of the `stsd` of a media.
fn stsd_body(alloc: Global, media: Media) -> Result<AtomWriter, NoMemory>
    ensures body { IfOk result (λ body. body ≡ stsd_body media) }
    ensures size { IfOk result (λ body. length body ≤ 94) }
{
    match media {
        Media::Video {
            kind,
            width,
            height,
            depth,
        } => pictures_body(alloc, kind, width, height, depth),
        Media::Sound { channels, rate } => sound_body(alloc, channels, rate),
    }
}

/// Appends the descriptions of a track.
pub(crate) fn put_stsd(alloc: Global, atoms: &mut AtomWriter, trak: &Trak) -> Result<(), NoMemory>
    ensures atom { OnOk result (atoms.new ≡ atoms.old ++ atom (codes "stsd") (stsd_body trak.now.media)) }
    ensures size { OnOk result (length atoms.new ≤ length atoms.old + 102) }
{
    let body = stsd_body(alloc, trak.media)?;
    put_atom(atoms, *b"stsd", body.held())
}
