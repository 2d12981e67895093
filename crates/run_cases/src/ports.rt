//! The top call over ports in memory.

ghost use Rattle.std.specs.Prelude.{◌≤◌};

use crate::cases::Files;
use gate_words::{calls_of, sink_of};
use monitors::{BlackMonitor, BytesMonitor, IndexMonitor, LevelMonitor, Monitor};
use pw_outside::{ByteSink, ByteSource, ByteStore, MemSink, MemSource, MemStore};
use std::alloc::Global;
use std::io;
use workshop::{Status, tells_monitors, workshop};

/// A port of a run.
#[derive(Clone, Copy, PartialEq, Eq)]
pub(crate) enum Port {
    Pictures,
    Proof,
    Movie,
    Out,
    Cert,
    Text,
}

/// How many bytes a call of a port moves, and the port and the number of the call that fails.
#[derive(Clone, Copy)]
pub(crate) struct Calls {
    pub(crate) step: usize,
    pub(crate) failing: Option<(Port, u64)>,
}

impl Calls {
    /// Calls that move `step` bytes, none of which fails.
    pub(crate) fn of(step: usize) -> Calls
        requires { 1 ≤ step }
        ensures { 1 ≤ result.step }
    {
        Calls {
            step,
            failing: None,
        }
    }

    /// The number of this port's call that fails.
    fn failing_of(self, port: Port) -> Option<u64> {
        match self.failing {
            Some((other, call)) => { if other == port { Some(call) } else { None } }
            None => None,
        }
    }
}

/// What a run answered, and what it wrote to `text`, `out` and `cert`.
#[derive(Drop)]
pub(crate) struct Ran {
    pub(crate) status: Status,
    pub(crate) text: Vec<u8>,
    pub(crate) out: Vec<u8>,
    pub(crate) cert: Vec<u8>,
}

/// The answer of the top call over these ports. `decode` has the four monitors, in the order of their reports. Nothing is said of
/// what it leaves: the cases compare that.
fn answered<S: ByteSource, M: ByteStore, K: ByteSink>(
    alloc: Global,
    words: &[String],
    pictures: &mut S,
    proof: &mut S,
    movie: &mut M,
    out: &mut K,
    cert: &mut K,
    text: &mut K,
) -> io::Result<Status> {
    let mut monitors: Vec<Box<dyn Monitor>> = Vec::new(alloc);
    if tells_monitors(words) {
        monitors.push(Box::new(alloc, LevelMonitor::new())?)?;
        monitors.push(Box::new(alloc, BlackMonitor::new(alloc))?)?;
        monitors.push(Box::new(alloc, BytesMonitor::new())?)?;
        monitors.push(Box::new(alloc, IndexMonitor::new())?)?;
    }
    Ok(workshop(
        alloc,
        words,
        pictures,
        proof,
        movie,
        out,
        cert,
        text,
        &mut monitors,
    ))
}

/// A source of this file.
fn source_of(rt: &HostRuntime, file: &[u8], calls: Calls, port: Port) -> io::Result<MemSource>
    requires { 1 ≤ calls.step }
{
    let bytes = file.to_vec(rt.alloc())?;
    let failing = calls_of(rt.alloc(), calls.failing_of(port))?;
    Ok(MemSource::new(bytes, calls.step, failing))
}

/// A store of this file.
fn store_of(rt: &HostRuntime, file: &[u8], calls: Calls) -> io::Result<MemStore>
    requires { 1 ≤ calls.step }
{
    let bytes = file.to_vec(rt.alloc())?;
    let failing = calls_of(rt.alloc(), calls.failing_of(Port::Movie))?;
    Ok(MemStore::new(bytes, calls.step, failing))
}

/// A sink.
fn sink_for(rt: &HostRuntime, calls: Calls, port: Port) -> io::Result<MemSink>
    requires { 1 ≤ calls.step }
{
    sink_of(rt.alloc(), calls.step, calls.failing_of(port))
}

/// A run of the top call over these files.
pub(crate) fn run_over(
    rt: &HostRuntime,
    words: &[String],
    files: Files<'_>,
    calls: Calls,
) -> io::Result<Ran>
    requires { 1 ≤ calls.step }
{
    let alloc = rt.alloc();
    let mut pictures = source_of(rt, files.pictures, calls, Port::Pictures)?;
    let mut proof = source_of(rt, files.proof, calls, Port::Proof)?;
    let mut movie = store_of(rt, files.movie, calls)?;
    let mut out = sink_for(rt, calls, Port::Out)?;
    let mut cert = sink_for(rt, calls, Port::Cert)?;
    let mut text = sink_for(rt, calls, Port::Text)?;
    let status = answered(
        alloc,
        words,
        &mut pictures,
        &mut proof,
        &mut movie,
        &mut out,
        &mut cert,
        &mut text,
    )?;
    Ok(Ran {
        status,
        text: text.bytes().to_vec(alloc)?,
        out: out.bytes().to_vec(alloc)?,
        cert: cert.bytes().to_vec(alloc)?,
    })
}
