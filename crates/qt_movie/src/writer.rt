//! Writes a movie.

use crate::pictures::moov_of;
use pic_y4m::{Head, WriteEnd};
use pw_fields::be32;
use pw_outside::{ByteSink, Failed, NoMemory, put_all};
use std::alloc::Global;
use std::marker::Model;

/// The file type: QuickTime.
const FTYP: [u8; 20] = *b"\x00\x00\x00\x14ftypqt  \x00\x00\x00\x00qt  ";

/// Writes a movie: the file type, the head of the data atom of each frame, and the movie atom at the end. The
/// caller writes the bytes of a frame after its head.
#[derive(Drop)]
pub struct MovieWriter {
    head: Head,
    sizes: Vec<u32>,
}

impl Model for MovieWriter {
    ghost use Rattle.std.specs.Prelude.{◌≤◌, ◌-◌, length, vec_capacity, vec_len};
    ghost use Rattle.pic_y4m.specs.HeadLine.{IsHead};
    ghost use Rattle.qt_movie.specs.MovieBytes.{WriterState};
    ghost use Rattle.qt_tables.specs.declared.tables.TheConstants.{MAX_SAMPLES};

    ghost Value = { WriterState };

    ghost view = { λ w. record { head = w.head; sizes = w.sizes.items; spare = vec_capacity w.sizes - vec_len w.sizes } };

    ghost invariant = { λ w. IsHead w.head × (length w.sizes.items ≤ MAX_SAMPLES) };
}

impl MovieWriter {
    ghost use Rattle.std.specs.Prelude.{◌≡◌, ◌≤◌, ◌<◌, ◌+◌, [], ◌∷◌, ◌++◌, length, is_err, IfOk, OnOk, OnErr};
    ghost use Rattle.pw_outside.specs.Ports.{CountsFault};
    ghost use Rattle.pw_outside.specs.Writing.{sink_state, Puts, PutsPart};
    ghost use Rattle.pic_y4m.specs.HeadLine.{IsHead};
    ghost use Rattle.pic_y4m.specs.Writing.{Writes, write_failed};
    ghost use Rattle.qt_movie.specs.MovieBytes.{ftyp_bytes, frame_head_bytes, moov_bytes, extents};
    ghost use Rattle.qt_tables.specs.declared.tables.TheConstants.{MAX_SAMPLES};

    /// Appends the file type. Takes no memory. After `Failed` a proper prefix of it was appended.
    pub fn begin<K: ByteSink>(
        alloc: Global,
        sink: &mut K,
        head: &Head,
    ) -> Result<MovieWriter, Failed>
        requires { IsHead head.now }
        ensures all { OnOk result (Puts (sink_state (K.held sink.old) (K.taken sink.old)) (sink_state (K.held sink.new) (K.taken sink.new)) ftyp_bytes) }
        ensures part { OnErr result (PutsPart (sink_state (K.held sink.old) (K.taken sink.old)) (sink_state (K.held sink.new) (K.taken sink.new)) ftyp_bytes) }
        ensures writer { IfOk result (λ w. (w.head ≡ head.now) × (w.sizes ≡ [])) }
        ensures settled { K.settled sink.old ≤ K.settled sink.new }
        ensures cause { CountsFault (K.faults sink.old) (K.faults sink.new) (is_err result) }
    {
        put_all(sink, &FTYP)?;
        Ok(MovieWriter {
            head: *head,
            sizes: Vec::new(alloc),
        })
    }

    /// The number of frames whose heads were appended, at most [`qt_tables::MAX_SAMPLES`].
    pub fn frames(&self) -> u32
        ensures value { result ≡ length self.now.sizes }
        ensures few { result ≤ MAX_SAMPLES }
    {
        self.sizes.len() as u32
    }

    /// Reserves memory for `frames` more frames. After `NoMemory` the writer is unchanged.
    pub fn reserve(&mut self, frames: u32) -> Result<(), NoMemory>
        ensures reserved { OnOk result (frames ≤ self.new.spare) }
        ensures kept { self.old.spare ≤ self.new.spare }
        ensures same { OnErr result (self.new.spare ≡ self.old.spare) }
        ensures head { self.new.head ≡ self.old.head }
        ensures sizes { self.new.sizes ≡ self.old.sizes }
    {
        match self.sizes.reserve(frames as usize) {
            Ok(()) => Ok(()),
            Err(_) => Err(NoMemory),
        }
    }

    /// Appends the head of the data atom of a frame of `size` bytes, at most 4,294,967,286. Takes only memory that
    /// `reserve` took. After `Failed` a proper prefix of it was appended, and the frame doesn't count.
    pub fn frame_head<K: ByteSink>(&mut self, sink: &mut K, size: u32) -> Result<(), Failed>
        requires reserved { 1 ≤ self.old.spare }
        requires few { length self.old.sizes < MAX_SAMPLES }
        requires small { size ≤ 4294967286 }
        ensures all { OnOk result (Puts (sink_state (K.held sink.old) (K.taken sink.old)) (sink_state (K.held sink.new) (K.taken sink.new)) (frame_head_bytes size)) }
        ensures part { OnErr result (PutsPart (sink_state (K.held sink.old) (K.taken sink.old)) (sink_state (K.held sink.new) (K.taken sink.new)) (frame_head_bytes size)) }
        ensures head { self.new.head ≡ self.old.head }
        ensures sizes { OnOk result (self.new.sizes ≡ self.old.sizes ++ size ∷ []) }
        ensures same { OnErr result (self.new.sizes ≡ self.old.sizes) }
        // A frame uses the memory of one frame, and a failed head none.
        ensures spare { self.old.spare ≤ self.new.spare + 1 }
        ensures spared { OnErr result (self.new.spare ≡ self.old.spare) }
        ensures settled { K.settled sink.old ≤ K.settled sink.new }
        ensures cause { CountsFault (K.faults sink.old) (K.faults sink.new) (is_err result) }
    {
        let length = be32(size + 8);
        put_all(
            sink,
            &[
                length[0], length[1], length[2], length[3], b'm', b'd', b'a', b't',
            ],
        )?;
        let _pushed = self.sizes.push(size);
        Ok(())
    }

    /// Appends the movie atom over the frames whose heads were appended. Takes all its memory before it writes the
    /// first byte.
    pub fn finish<K: ByteSink>(self, alloc: Global, sink: &mut K) -> Result<(), WriteEnd>
        // All of it is appended; after `Failed` a prefix, after `NoMemory` nothing.
        ensures bytes { Writes result (sink_state (K.held sink.old) (K.taken sink.old)) (sink_state (K.held sink.new) (K.taken sink.new)) (moov_bytes self.head (extents self.sizes)) }
        ensures settled { K.settled sink.old ≤ K.settled sink.new }
        ensures cause { CountsFault (K.faults sink.old) (K.faults sink.new) (write_failed result) }
    {
        let MovieWriter { head, sizes } = self;
        let atoms = match moov_of(alloc, &head, sizes) {
            Ok(atoms) => atoms,
            Err(_) => return Err(WriteEnd::NoMemory),
        };
        match put_all(sink, atoms.held()) {
            Ok(()) => Ok(()),
            Err(_) => Err(WriteEnd::Failed),
        }
    }
}
