//! Writes the sample tables of a track.

ghost use Rattle.std.specs.Prelude.{◌≡◌, ◌≤◌, ◌+◌, ◌*◌, [], ◌∷◌, ◌++◌, length, true, codes, IfOk, OnOk};
ghost use Rattle.std.specs.List.{flat_map};
ghost use Rattle.std.specs.Int.{w64, to_be_bytes};
ghost use Rattle.qt_atoms.specs.Written.{atom, atom_of};
ghost use Rattle.qt_tables.specs.Writing.{numbers_bytes};
ghost use Rattle.qt_movie.specs.Trak.{time_bytes, run_bytes, stts_body, stsc_body, stsz_body, are_near, stco_body, co64_body, offsets_node};
ghost use Rattle.qt_tables.specs.declared.tables.TheConstants.{MAX_SAMPLES};

use crate::leaves::put_atom;
use crate::trak::Trak;
use pw_fields::be32;
use pw_outside::NoMemory;
use qt_atoms::AtomWriter;
use std::alloc::Global;

/// Appends 32-bit numbers.
fn put_numbers(body: &mut AtomWriter, numbers: &[u32]) -> Result<(), NoMemory>
    ensures bytes { OnOk result (body.new ≡ body.old ++ numbers_bytes numbers.now) }
    ensures size { OnOk result (length body.new ≡ length body.old + 4 * length numbers.now) }
{
    'numbers: for number in numbers {
        body.bytes(&number.to_be_bytes())?;
    }
    Ok(())
}

/// Appends 32-bit offsets.
fn put_near(body: &mut AtomWriter, offsets: &[u64]) -> Result<(), NoMemory>
    requires { are_near offsets.now ≡ true }
    ensures bytes { OnOk result (body.new ≡ body.old ++ numbers_bytes offsets.now) }
    ensures size { OnOk result (length body.new ≡ length body.old + 4 * length offsets.now) }
{
    'offsets: for offset in offsets {
        body.bytes(&(*offset as u32).to_be_bytes())?;
    }
    Ok(())
}

/// Appends 64-bit offsets.
fn put_far(body: &mut AtomWriter, offsets: &[u64]) -> Result<(), NoMemory>
    ensures bytes { OnOk result (body.new ≡ body.old ++ flat_map (to_be_bytes w64) offsets.now) }
    ensures size { OnOk result (length body.new ≡ length body.old + 8 * length offsets.now) }
{
    'offsets: for offset in offsets {
        body.bytes(&offset.to_be_bytes())?;
    }
    Ok(())
}

/// Appends runs of samples with one duration.
fn put_times(body: &mut AtomWriter, runs: &[(u32, u32)]) -> Result<(), NoMemory>
    ensures bytes { OnOk result (body.new ≡ body.old ++ flat_map time_bytes runs.now) }
    ensures size { OnOk result (length body.new ≡ length body.old + 8 * length runs.now) }
{
    'runs: for run in runs {
        put_numbers(body, &[run.0, run.1])?;
    }
    Ok(())
}

/// Appends runs of chunks.
fn put_runs(body: &mut AtomWriter, runs: &[(u32, u32, u32)]) -> Result<(), NoMemory>
    ensures bytes { OnOk result (body.new ≡ body.old ++ flat_map run_bytes runs.now) }
    ensures size { OnOk result (length body.new ≡ length body.old + 12 * length runs.now) }
{
    'runs: for run in runs {
        put_numbers(body, &[run.0, run.1, run.2])?;
    }
    Ok(())
}

/// The body of the `stts`.
fn stts_body(alloc: Global, runs: &[(u32, u32)]) -> Result<AtomWriter, NoMemory>
    requires { length runs.now ≤ MAX_SAMPLES }
    ensures body { IfOk result (λ body. body ≡ stts_body runs.now) }
    ensures size { IfOk result (λ body. length body ≤ 8000008) }
{
    let mut body = AtomWriter::new(alloc);
    put_numbers(&mut body, &[0, runs.len() as u32])?;
    put_times(&mut body, runs)?;
    Ok(body)
}

/// Appends the `stts`.
pub(crate) fn put_stts(alloc: Global, atoms: &mut AtomWriter, trak: &Trak) -> Result<(), NoMemory>
    requires { length trak.now.stts ≤ MAX_SAMPLES }
    ensures atom { OnOk result (atoms.new ≡ atoms.old ++ atom (codes "stts") (stts_body trak.now.stts)) }
    ensures size { OnOk result (length atoms.new ≤ length atoms.old + 8000016) }
{
    let body = stts_body(alloc, &trak.stts)?;
    put_atom(atoms, *b"stts", body.held())
}

/// The body of the `stsc`.
fn stsc_body(alloc: Global, runs: &[(u32, u32, u32)]) -> Result<AtomWriter, NoMemory>
    requires { length runs.now ≤ MAX_SAMPLES }
    ensures body { IfOk result (λ body. body ≡ stsc_body runs.now) }
    ensures size { IfOk result (λ body. length body ≤ 12000008) }
{
    let mut body = AtomWriter::new(alloc);
    put_numbers(&mut body, &[0, runs.len() as u32])?;
    put_runs(&mut body, runs)?;
    Ok(body)
}

/// Appends the `stsc`.
pub(crate) fn put_stsc(alloc: Global, atoms: &mut AtomWriter, trak: &Trak) -> Result<(), NoMemory>
    requires { length trak.now.stsc ≤ MAX_SAMPLES }
    ensures atom { OnOk result (atoms.new ≡ atoms.old ++ atom (codes "stsc") (stsc_body trak.now.stsc)) }
    ensures size { OnOk result (length atoms.new ≤ length atoms.old + 12000016) }
{
    let body = stsc_body(alloc, &trak.stsc)?;
    put_atom(atoms, *b"stsc", body.held())
}

/// The body of the `stsz`.
fn stsz_body(alloc: Global, common: u32, count: u32, sizes: &[u32]) -> Result<AtomWriter, NoMemory>
    requires { length sizes.now ≤ MAX_SAMPLES }
    ensures body { IfOk result (λ body. body ≡ stsz_body common count sizes.now) }
    ensures size { IfOk result (λ body. length body ≤ 4000012) }
{
    let mut body = AtomWriter::new(alloc);
    put_numbers(&mut body, &[0, common, count])?;
    put_numbers(&mut body, sizes)?;
    Ok(body)
}

/// Appends the `stsz`.
pub(crate) fn put_stsz(alloc: Global, atoms: &mut AtomWriter, trak: &Trak) -> Result<(), NoMemory>
    requires { length trak.now.sizes ≤ MAX_SAMPLES }
    ensures atom { OnOk result (atoms.new ≡ atoms.old ++ atom (codes "stsz") (stsz_body trak.now.common trak.now.count trak.now.sizes)) }
    ensures size { OnOk result (length atoms.new ≤ length atoms.old + 4000020) }
{
    let body = stsz_body(alloc, trak.common, trak.count, &trak.sizes)?;
    put_atom(atoms, *b"stsz", body.held())
}

/// The body of the `stco`.
fn stco_body(alloc: Global, offsets: &[u64]) -> Result<AtomWriter, NoMemory>
    requires few { length offsets.now ≤ MAX_SAMPLES }
    requires near { are_near offsets.now ≡ true }
    ensures body { IfOk result (λ body. body ≡ stco_body offsets.now) }
    ensures size { IfOk result (λ body. length body ≤ 4000008) }
{
    let mut body = AtomWriter::new(alloc);
    put_numbers(&mut body, &[0, offsets.len() as u32])?;
    put_near(&mut body, offsets)?;
    Ok(body)
}

/// The body of the `co64`.
fn co64_body(alloc: Global, offsets: &[u64]) -> Result<AtomWriter, NoMemory>
    requires { length offsets.now ≤ MAX_SAMPLES }
    ensures body { IfOk result (λ body. body ≡ co64_body offsets.now) }
    ensures size { IfOk result (λ body. length body ≤ 8000008) }
{
    let mut body = AtomWriter::new(alloc);
    put_numbers(&mut body, &[0, offsets.len() as u32])?;
    put_far(&mut body, offsets)?;
    Ok(body)
}

/// Whether each offset fits 32 bits.
fn all_near(offsets: &[u64]) -> bool
    ensures { result ≡ are_near offsets.now }
{
    offsets.iter().all(|offset| *offset < 1 << 32)
}

/// Appends the `stco`, or the `co64` if an offset needs more than 32 bits.
fn put_places(alloc: Global, atoms: &mut AtomWriter, offsets: &[u64]) -> Result<(), NoMemory>
    requires { length offsets.now ≤ MAX_SAMPLES }
    ensures atom { OnOk result (atoms.new ≡ atoms.old ++ atom_of (offsets_node offsets.now)) }
    ensures size { OnOk result (length atoms.new ≤ length atoms.old + 8000016) }
{
    if all_near(offsets) {
        let body = stco_body(alloc, offsets)?;
        put_atom(atoms, *b"stco", body.held())
    } else {
        let body = co64_body(alloc, offsets)?;
        put_atom(atoms, *b"co64", body.held())
    }
}

/// Appends the offsets of the chunks.
pub(crate) fn put_offsets(
    alloc: Global,
    atoms: &mut AtomWriter,
    trak: &Trak,
) -> Result<(), NoMemory>
    requires { length trak.now.offsets ≤ MAX_SAMPLES }
    ensures atom { OnOk result (atoms.new ≡ atoms.old ++ atom_of (offsets_node trak.now.offsets)) }
    ensures size { OnOk result (length atoms.new ≤ length atoms.old + 8000016) }
{
    put_places(alloc, atoms, &trak.offsets)
}
