//! Writes pictures in order.

ghost use Rattle.std.specs.Prelude.{◌≡◌, ◌≤◌, IfOk, OnOk, OnErr, is_err};
ghost use Rattle.pw_outside.specs.Ports.{CountsFault};
ghost use Rattle.pw_outside.specs.Writing.{sink_state, Puts, PutsPart};
ghost use Rattle.pic_y4m.specs.Frames.{HasForm, AreBelow};
ghost use Rattle.pic_y4m.specs.Writing.{Writes, write_failed, mode_text, sampling_text, depth_text, head_bytes, frame_bytes};

use crate::head::Head;
use crate::pieces::put_samples;
use crate::samples::size_of;
use pw_outside::{ByteSink, Failed, NoMemory, put_all};
use pw_planes::{Chroma, Depth, Interlace, Picture};
use pw_text::{put_decimal, put_words};
use std::alloc::Global;
use std::marker::Model;

/// Why writing failed.
#[derive(Clone, Copy, Debug, PartialEq, Eq)]
pub enum WriteEnd {
    /// A call of the sink failed.
    Failed,
    /// Memory ran out.
    NoMemory,
}

/// The letter of parameter `I`.
fn mode_text(interlace: Interlace) -> &'static str
    ensures { result.now ≡ mode_text interlace }
{
    match interlace {
        Interlace::Progressive => "p",
        Interlace::TopFirst => "t",
        Interlace::BottomFirst => "b",
    }
}

/// The subsampling in the tag of parameter `C`.
fn sampling_text(chroma: Chroma) -> &'static str
    ensures { result.now ≡ sampling_text chroma }
{
    match chroma {
        Chroma::C422 => "422",
        Chroma::C444 => "444",
    }
}

/// The bit depth in the tag of parameter `C`.
fn depth_text(depth: Depth) -> &'static str
    ensures { result.now ≡ depth_text depth }
{
    match depth {
        Depth::D8 => "",
        Depth::D10 => "p10",
        Depth::D12 => "p12",
    }
}

/// The head line.
#[tactic(auto, unfolding(crate::specs::Writing::head_bytes))]
fn head_text(alloc: Global, head: &Head) -> Result<Vec<u8>, NoMemory>
    ensures { IfOk result (λ text. text.items ≡ head_bytes head.now) }
{
    let mut text = Vec::new(alloc);
    put_words(&mut text, "YUV4MPEG2 W")?;
    put_decimal(&mut text, u64::from(head.width))?;
    put_words(&mut text, " H")?;
    put_decimal(&mut text, u64::from(head.height))?;
    put_words(&mut text, " F")?;
    put_decimal(&mut text, u64::from(head.num))?;
    put_words(&mut text, ":")?;
    put_decimal(&mut text, u64::from(head.den))?;
    put_words(&mut text, " I")?;
    put_words(&mut text, mode_text(head.interlace))?;
    put_words(&mut text, " C")?;
    put_words(&mut text, sampling_text(head.chroma))?;
    put_words(&mut text, depth_text(head.depth))?;
    put_words(&mut text, "\n")?;
    Ok(text)
}

/// Writes a frame.
fn put_frame<K: ByteSink>(sink: &mut K, depth: Depth, picture: &Picture) -> Result<(), Failed>
    requires y { AreBelow depth picture.now.y.samples }
    requires cb { AreBelow depth picture.now.cb.samples }
    requires cr { AreBelow depth picture.now.cr.samples }
    ensures ok { OnOk result (Puts (sink_state (K.held sink.old) (K.taken sink.old)) (sink_state (K.held sink.new) (K.taken sink.new)) (frame_bytes depth picture.now)) }
    ensures err { OnErr result (PutsPart (sink_state (K.held sink.old) (K.taken sink.old)) (sink_state (K.held sink.new) (K.taken sink.new)) (frame_bytes depth picture.now)) }
    ensures settled { K.settled sink.old ≤ K.settled sink.new }
    ensures cause { CountsFault (K.faults sink.old) (K.faults sink.new) (is_err result) }
{
    let size = size_of(depth);
    put_all(sink, b"FRAME\n")?;
    put_samples(sink, size, picture.y.samples())?;
    put_samples(sink, size, picture.cb.samples())?;
    put_samples(sink, size, picture.cr.samples())
}

/// Writes pictures of one form in order. Alpha isn't written.
#[derive(Drop)]
pub struct Y4mWriter {
    head: Head,
}

impl Model for Y4mWriter {
    ghost use Rattle.pic_y4m.specs.declared.head.Head.{Head};

    ghost Value = { Head };

    ghost view = { λ w. w.head };
}

impl Y4mWriter {
    /// Writes the head line.
    ///
    /// The errors are `Failed` if a call of the sink failed, and `NoMemory`.
    pub fn start<K: ByteSink>(
        alloc: Global,
        sink: &mut K,
        head: &Head,
    ) -> Result<Y4mWriter, WriteEnd>
        // The head line is appended: all of it; after `Failed` a prefix, after `NoMemory` nothing.
        ensures bytes { Writes result (sink_state (K.held sink.old) (K.taken sink.old)) (sink_state (K.held sink.new) (K.taken sink.new)) (head_bytes head.now) }
        ensures writer { IfOk result (λ w. w ≡ head.now) }
        ensures settled { K.settled sink.old ≤ K.settled sink.new }
        // The error is `Failed` exactly if a call of the sink failed.
        ensures cause { CountsFault (K.faults sink.old) (K.faults sink.new) (write_failed result) }
    {
        let text = match head_text(alloc, head) {
            Ok(text) => text,
            Err(_) => return Err(WriteEnd::NoMemory),
        };
        match put_all(sink, &text) {
            Ok(()) => Ok(Y4mWriter { head: *head }),
            Err(_) => Err(WriteEnd::Failed),
        }
    }

    /// Writes a picture of the head's form. Takes no memory.
    ///
    /// The error is `Failed` if a call of the sink failed.
    pub fn picture<K: ByteSink>(&mut self, sink: &mut K, picture: &Picture) -> Result<(), WriteEnd>
        requires { HasForm self.old picture.now }
        // The frame is appended: all of it, or after `Failed` a prefix.
        ensures bytes { Writes result (sink_state (K.held sink.old) (K.taken sink.old)) (sink_state (K.held sink.new) (K.taken sink.new)) (frame_bytes self.old.depth picture.now) }
        ensures same { self.new ≡ self.old }
        ensures settled { K.settled sink.old ≤ K.settled sink.new }
        // The only error is `Failed`, exactly if a call of the sink failed.
        ensures failed { write_failed result ≡ is_err result }
        ensures cause { CountsFault (K.faults sink.old) (K.faults sink.new) (write_failed result) }
    {
        match put_frame(sink, self.head.depth, picture) {
            Ok(()) => Ok(()),
            Err(_) => Err(WriteEnd::Failed),
        }
    }
}
