//! Writes the sample tables of samples with one duration.

ghost use Rattle.std.specs.Prelude.{◌≡◌, ◌≤◌, ◌<◌, ◌++◌, true, length, OnOk, codes};
ghost use Rattle.std.specs.List.{flat_map};
ghost use Rattle.std.specs.Int.{w64, to_be_bytes};
ghost use Rattle.qt_atoms.specs.Written.{atom, atom_of};
ghost use Rattle.qt_tables.specs.Writing.{numbers_bytes, times_body, runs_body, sizes_of, sizes_body, places_of, are_near, near_body, far_body, places_node, tables_bytes};
ghost use Rattle.qt_tables.specs.declared.tables.TheConstants.{MAX_SAMPLES};

use pw_outside::NoMemory;
use qt_atoms::AtomWriter;
use std::alloc::Global;
use std::marker::Model;

/// The bytes of a sample: their offset in the file and their number.
#[derive(Clone, Copy, Debug, PartialEq, Eq)]
pub struct Extent {
    /// The offset of the first byte.
    pub at: u64,
    /// The number of bytes.
    pub size: u32,
}

/// Collects samples, each in a chunk of its own, and writes their tables. At most
/// [`MAX_SAMPLES`](crate::MAX_SAMPLES) samples.
#[derive(Drop)]
pub struct TableWriter {
    extents: Vec<Extent>,
}

impl Model for TableWriter {
    ghost use Rattle.std.specs.Prelude.{List, ◌≤◌, length};
    ghost use Rattle.qt_tables.specs.declared.writer.Extent.{Extent};
    ghost use Rattle.qt_tables.specs.declared.tables.TheConstants.{MAX_SAMPLES};

    ghost Value = { List Extent };

    ghost view = { λ w. w.extents.items };

    ghost invariant = { λ w. length w.extents.items ≤ MAX_SAMPLES };
}

/// Appends numbers.
fn put_numbers(atoms: &mut AtomWriter, numbers: &[u32]) -> Result<(), NoMemory>
    ensures { OnOk result (atoms.new ≡ atoms.old ++ numbers_bytes numbers.now) }
{
    'numbers: for number in numbers {
        atoms.bytes(&number.to_be_bytes())?;
    }
    Ok(())
}

/// Appends the sizes.
fn put_sizes(extents: &[Extent], atoms: &mut AtomWriter) -> Result<(), NoMemory>
    ensures { OnOk result (atoms.new ≡ atoms.old ++ numbers_bytes (sizes_of extents.now)) }
{
    'extents: for extent in extents {
        atoms.bytes(&extent.size.to_be_bytes())?;
    }
    Ok(())
}

/// Appends 32-bit offsets.
fn put_near(extents: &[Extent], atoms: &mut AtomWriter) -> Result<(), NoMemory>
    requires { are_near extents.now ≡ true }
    ensures { OnOk result (atoms.new ≡ atoms.old ++ numbers_bytes (places_of extents.now)) }
{
    'extents: for extent in extents {
        atoms.bytes(&(extent.at as u32).to_be_bytes())?;
    }
    Ok(())
}

/// Appends 64-bit offsets.
fn put_far(extents: &[Extent], atoms: &mut AtomWriter) -> Result<(), NoMemory>
    ensures { OnOk result (atoms.new ≡ atoms.old ++ flat_map (to_be_bytes w64) (places_of extents.now)) }
{
    'extents: for extent in extents {
        atoms.bytes(&extent.at.to_be_bytes())?;
    }
    Ok(())
}

/// Appends the body of the `stts` of `count` samples.
fn put_times_body(count: u32, duration: u32, atoms: &mut AtomWriter) -> Result<(), NoMemory>
    ensures { OnOk result (atoms.new ≡ atoms.old ++ times_body count duration) }
{
    if count == 0 {
        return put_numbers(atoms, &[0, 0]);
    }
    put_numbers(atoms, &[0, 1, count, duration])
}

/// Appends the body of the `stsc` of `count` samples.
fn put_runs_body(count: u32, atoms: &mut AtomWriter) -> Result<(), NoMemory>
    ensures { OnOk result (atoms.new ≡ atoms.old ++ runs_body count) }
{
    if count == 0 {
        return put_numbers(atoms, &[0, 0]);
    }
    put_numbers(atoms, &[0, 1, 1, 1, 1])
}

/// Appends the body of the `stsz`.
fn put_sizes_body(extents: &[Extent], atoms: &mut AtomWriter) -> Result<(), NoMemory>
    requires { length extents.now ≤ MAX_SAMPLES }
    ensures { OnOk result (atoms.new ≡ atoms.old ++ sizes_body extents.now) }
{
    put_numbers(atoms, &[0, 0, extents.len() as u32])?;
    put_sizes(extents, atoms)
}

/// Appends the body of the `stco`.
fn put_near_body(extents: &[Extent], atoms: &mut AtomWriter) -> Result<(), NoMemory>
    requires few { length extents.now ≤ MAX_SAMPLES }
    requires near { are_near extents.now ≡ true }
    ensures { OnOk result (atoms.new ≡ atoms.old ++ near_body extents.now) }
{
    put_numbers(atoms, &[0, extents.len() as u32])?;
    put_near(extents, atoms)
}

/// Appends the body of the `co64`.
fn put_far_body(extents: &[Extent], atoms: &mut AtomWriter) -> Result<(), NoMemory>
    requires { length extents.now ≤ MAX_SAMPLES }
    ensures { OnOk result (atoms.new ≡ atoms.old ++ far_body extents.now) }
{
    put_numbers(atoms, &[0, extents.len() as u32])?;
    put_far(extents, atoms)
}

/// Appends the `stts` of `count` samples.
fn write_times(count: u32, duration: u32, atoms: &mut AtomWriter) -> Result<(), NoMemory>
    ensures { OnOk result (atoms.new ≡ atoms.old ++ atom (codes "stts") (times_body count duration)) }
{
    let begun = atoms.begin(*b"stts")?;
    put_times_body(count, duration, atoms)?;
    atoms.end(begun);
    Ok(())
}

/// Appends the `stsc` of `count` samples.
fn write_runs(count: u32, atoms: &mut AtomWriter) -> Result<(), NoMemory>
    ensures { OnOk result (atoms.new ≡ atoms.old ++ atom (codes "stsc") (runs_body count)) }
{
    let begun = atoms.begin(*b"stsc")?;
    put_runs_body(count, atoms)?;
    atoms.end(begun);
    Ok(())
}

/// Appends the `stsz`.
fn write_sizes(extents: &[Extent], atoms: &mut AtomWriter) -> Result<(), NoMemory>
    requires { length extents.now ≤ MAX_SAMPLES }
    ensures { OnOk result (atoms.new ≡ atoms.old ++ atom (codes "stsz") (sizes_body extents.now)) }
{
    let begun = atoms.begin(*b"stsz")?;
    put_sizes_body(extents, atoms)?;
    atoms.end(begun);
    Ok(())
}

/// Appends the `stco`.
fn write_near(extents: &[Extent], atoms: &mut AtomWriter) -> Result<(), NoMemory>
    requires few { length extents.now ≤ MAX_SAMPLES }
    requires near { are_near extents.now ≡ true }
    ensures { OnOk result (atoms.new ≡ atoms.old ++ atom (codes "stco") (near_body extents.now)) }
{
    let begun = atoms.begin(*b"stco")?;
    put_near_body(extents, atoms)?;
    atoms.end(begun);
    Ok(())
}

/// Appends the `co64`.
fn write_far(extents: &[Extent], atoms: &mut AtomWriter) -> Result<(), NoMemory>
    requires { length extents.now ≤ MAX_SAMPLES }
    ensures { OnOk result (atoms.new ≡ atoms.old ++ atom (codes "co64") (far_body extents.now)) }
{
    let begun = atoms.begin(*b"co64")?;
    put_far_body(extents, atoms)?;
    atoms.end(begun);
    Ok(())
}

/// Whether each offset fits 32 bits.
fn all_near(extents: &[Extent]) -> bool
    ensures { result ≡ are_near extents.now }
{
    extents.iter().all(|extent| extent.at < 1 << 32)
}

/// Appends the `stco`, or the `co64` if an offset needs more than 32 bits.
fn write_places(extents: &[Extent], atoms: &mut AtomWriter) -> Result<(), NoMemory>
    requires { length extents.now ≤ MAX_SAMPLES }
    ensures { OnOk result (atoms.new ≡ atoms.old ++ atom_of (places_node extents.now)) }
{
    if all_near(extents) {
        write_near(extents, atoms)
    } else {
        write_far(extents, atoms)
    }
}

/// Appends the four tables.
fn write_tables(extents: &[Extent], duration: u32, atoms: &mut AtomWriter) -> Result<(), NoMemory>
    requires { length extents.now ≤ MAX_SAMPLES }
    ensures { OnOk result (atoms.new ≡ atoms.old ++ tables_bytes extents.now duration) }
{
    let count = extents.len() as u32;
    write_times(count, duration, atoms)?;
    write_runs(count, atoms)?;
    write_sizes(extents, atoms)?;
    write_places(extents, atoms)?;
    Ok(())
}

impl TableWriter {
    ghost use Rattle.std.specs.Prelude.{[], ◌∷◌, OnErr};
    ghost use Rattle.qt_tables.specs.declared.tables.TheConstants.{MAX_SAMPLES};

    /// A writer without samples.
    pub fn new(alloc: Global) -> TableWriter
        ensures { result ≡ [] }
    {
        TableWriter {
            extents: Vec::new(alloc),
        }
    }

    /// Appends a sample. After `NoMemory` the samples are unchanged.
    pub fn push(&mut self, at: u64, size: u32) -> Result<(), NoMemory>
        requires { length self.old < MAX_SAMPLES }
        ensures pushed { OnOk result (self.new ≡ self.old ++ record { at = at; size = size } ∷ []) }
        ensures same { OnErr result (self.new ≡ self.old) }
    {
        match self.extents.push(Extent { at, size }) {
            Ok(()) => Ok(()),
            Err(_) => Err(NoMemory),
        }
    }

    /// Appends the `stts`, `stsc`, `stsz` and `stco` or `co64` of the samples, each of this duration.
    pub fn write(&self, duration: u32, atoms: &mut AtomWriter) -> Result<(), NoMemory>
        ensures { OnOk result (atoms.new ≡ atoms.old ++ tables_bytes self.now duration) }
    {
        write_tables(&self.extents, duration, atoms)
    }
}
