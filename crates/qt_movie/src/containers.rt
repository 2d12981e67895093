//! The movie atom, and its atoms that contain atoms.

ghost use Rattle.std.specs.Prelude.{◌≡◌, ◌≤◌, ◌<◌, ◌+◌, ◌*◌, ◌^◌, ◌++◌, length, map, codes, IfOk, OnOk};
ghost use Rattle.std.specs.List.{All};
ghost use Rattle.qt_atoms.specs.Written.{atom, atom_of};
ghost use Rattle.qt_movie.specs.Bodies.{nodes_bytes};
ghost use Rattle.qt_movie.specs.Trak.{IsTrak, stbl_nodes, minf_nodes, mdia_nodes, trak_node, moov_nodes, moov_of_traks};

use crate::describing::put_stsd;
use crate::leaves::{
    put_dinf, put_hdlr, put_mdhd, put_media_hdlr, put_media_head, put_mvhd, put_tkhd,
};
use crate::tables::{put_offsets, put_stsc, put_stsz, put_stts};
use crate::trak::Trak;
use pw_outside::NoMemory;
use qt_atoms::AtomWriter;
use std::alloc::Global;

/// Appends the description and the sample tables.
fn put_stbl(alloc: Global, atoms: &mut AtomWriter, trak: &Trak) -> Result<(), NoMemory>
    requires { IsTrak trak.now }
    ensures atom { OnOk result (atoms.new ≡ atoms.old ++ atom (codes "stbl") (nodes_bytes (stbl_nodes trak.now))) }
    ensures size { OnOk result (length atoms.new ≤ length atoms.old + 32000178) }
{
    let begun = atoms.begin(*b"stbl")?;
    put_stsd(alloc, atoms, trak)?;
    put_stts(alloc, atoms, trak)?;
    put_stsc(alloc, atoms, trak)?;
    put_stsz(alloc, atoms, trak)?;
    put_offsets(alloc, atoms, trak)?;
    atoms.end(begun);
    Ok(())
}

/// Appends the media information.
fn put_minf(alloc: Global, atoms: &mut AtomWriter, trak: &Trak) -> Result<(), NoMemory>
    requires { IsTrak trak.now }
    ensures atom { OnOk result (atoms.new ≡ atoms.old ++ atom (codes "minf") (nodes_bytes (minf_nodes trak.now))) }
    ensures size { OnOk result (length atoms.new ≤ length atoms.old + 32000300) }
{
    let begun = atoms.begin(*b"minf")?;
    put_media_head(atoms, trak)?;
    put_hdlr(alloc, atoms, *b"dhlr", *b"alis")?;
    put_dinf(atoms)?;
    put_stbl(alloc, atoms, trak)?;
    atoms.end(begun);
    Ok(())
}

/// Appends the media.
fn put_mdia(alloc: Global, atoms: &mut AtomWriter, trak: &Trak) -> Result<(), NoMemory>
    requires { IsTrak trak.now }
    ensures atom { OnOk result (atoms.new ≡ atoms.old ++ atom (codes "mdia") (nodes_bytes (mdia_nodes trak.now))) }
    ensures size { OnOk result (length atoms.new ≤ length atoms.old + 32000400) }
{
    let begun = atoms.begin(*b"mdia")?;
    put_mdhd(alloc, atoms, trak)?;
    put_media_hdlr(alloc, atoms, trak)?;
    put_minf(alloc, atoms, trak)?;
    atoms.end(begun);
    Ok(())
}

/// Appends one track: a `trak` of pictures or of plain PCM sound (QuickTime File Format, "Track atoms"; the choice
/// of atoms and their order are our own): at most 32,000,600 bytes. After `NoMemory` a part of it may have been
/// appended, and the writer's bytes are of no use.
pub fn write_trak(alloc: Global, atoms: &mut AtomWriter, trak: &Trak) -> Result<(), NoMemory>
    requires { IsTrak trak.now }
    ensures atom { OnOk result (atoms.new ≡ atoms.old ++ atom_of (trak_node trak.now)) }
    ensures size { OnOk result (length atoms.new ≤ length atoms.old + 32000600) }
{
    let begun = atoms.begin(*b"trak")?;
    put_tkhd(alloc, atoms, trak)?;
    put_mdia(alloc, atoms, trak)?;
    atoms.end(begun);
    Ok(())
}

/// Appends the tracks.
fn put_traks(alloc: Global, atoms: &mut AtomWriter, traks: &[Trak]) -> Result<(), NoMemory>
    requires { All IsTrak traks.now }
    ensures atoms { OnOk result (atoms.new ≡ atoms.old ++ nodes_bytes (map trak_node traks.now)) }
    ensures size { OnOk result (length atoms.new ≤ length atoms.old + 32000600 * length traks.now) }
{
    'traks: for trak in traks {
        write_trak(alloc, atoms, trak)?;
    }
    Ok(())
}

/// Appends the movie atom.
#[tactic(auto, unfolding(crate::specs::Trak::moov_of_traks))]
fn put_moov(
    alloc: Global,
    atoms: &mut AtomWriter,
    timescale: u32,
    duration: u32,
    traks: &[Trak],
) -> Result<(), NoMemory>
    requires few { length traks.now ≤ 100 }
    requires each { All IsTrak traks.now }
    ensures { OnOk result (atoms.new ≡ atoms.old ++ moov_of_traks timescale duration traks.now) }
{
    let begun = atoms.begin(*b"moov")?;
    put_mvhd(alloc, atoms, timescale, duration, traks.len() as u32 + 1)?;
    put_traks(alloc, atoms, traks)?;
    atoms.end(begun);
    Ok(())
}

/// The movie atom with these tracks, at most 100, its time scale, and its duration in units of that. The next track
/// ID is one more than the number of tracks.
pub fn write_moov(
    alloc: Global,
    timescale: u32,
    duration: u32,
    traks: &[Trak],
) -> Result<AtomWriter, NoMemory>
    requires few { length traks.now ≤ 100 }
    requires each { All IsTrak traks.now }
    ensures { IfOk result (λ atoms. atoms ≡ moov_of_traks timescale duration traks.now) }
{
    let mut atoms = AtomWriter::new(alloc);
    put_moov(alloc, &mut atoms, timescale, duration, traks)?;
    Ok(atoms)
}
