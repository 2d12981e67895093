//! Runs in which a call of a port fails.

ghost use Rattle.std.specs.Prelude.{◌≤◌};

use crate::cases::{Case, case_of};
use crate::ports::{Calls, Port, Ran, run_over};
use crate::runs::line_of;
use std::io;
use workshop::Status;

/// Bytes that a call moves.
const STEP: usize = 7;

/// More calls than any port of a case has.
const MANY: u64 = 100_000;

/// The ports in the order of an answer.
const PORTS: [Port; 6] = [
    Port::Pictures,
    Port::Proof,
    Port::Movie,
    Port::Out,
    Port::Cert,
    Port::Text,
];

/// The status of a run in which a call of this port fails.
fn fault_of(port: Port) -> Status {
    match port {
        Port::Pictures | Port::Proof | Port::Movie => Status::ReadFault,
        Port::Out | Port::Cert | Port::Text => Status::WriteFault,
    }
}

/// Whether each sink holds a prefix of what it holds after the other run.
fn is_prefix(run: &Ran, whole: &Ran) -> bool {
    whole.out.starts_with(&run.out)
        && whole.cert.starts_with(&run.cert)
        && whole.text.starts_with(&run.text)
}

/// Whether two runs ended alike and wrote the same.
fn is_same(a: &Ran, b: &Ran) -> bool {
    a.status == b.status && is_prefix(a, b) && is_prefix(b, a)
}

/// Whether `text` holds nothing, or `out` and `cert` hold at least what they held at the first call of `text`.
fn is_in_order(run: &Ran, first: &Ran) -> bool {
    run.text.is_empty() || first.out.len() <= run.out.len() && first.cert.len() <= run.cert.len()
}

/// A run in which the call of this number of this port fails.
fn failed(rt: &HostRuntime, case: &Case, port: Port, call: u64) -> io::Result<Ran> {
    let calls = Calls {
        step: STEP,
        failing: Some((port, call)),
    };
    run_over(rt, &case.words, case.files(), calls)
}

/// Whether each call of a port that fails is told, up to the first number that no call has.
fn port_answer(
    rt: &HostRuntime,
    case: &Case,
    whole: &Ran,
    first: &Ran,
    port: Port,
) -> io::Result<&'static str> {
    let fault = fault_of(port);
    for call in 0..MANY {
        let run = failed(rt, case, port, call)?;
        let is_told = run.status == fault && is_prefix(&run, whole) && is_in_order(&run, first);
        if !is_told {
            // No call has this number: the run is the whole one.
            if !is_same(&run, whole) {
                return Ok("not told");
            }
            return Ok(if call == 0 { "unused" } else { "told" });
        }
    }
    Ok("too many calls")
}

pub(crate) fn fails_answer(rt: &HostRuntime, text: &str) -> io::Result<String> {
    let case = case_of(rt, text)?;
    let whole = run_over(rt, &case.words, case.files(), Calls::of(STEP))?;
    let first = failed(rt, &case, Port::Text, 0)?;
    let mut told = String::new(rt.alloc());
    for port in PORTS {
        told.push_str(port_answer(rt, &case, &whole, &first, port)?)?;
        told.push_str(", ")?;
    }
    let line = line_of(rt, &whole)?;
    let (out, cert) = (first.out.len(), first.cert.len());
    Ok(format!(in rt.alloc(); "{told}text after {out} and {cert} | {line}")?)
}
