//! The run of `rescue`.

ghost use Rattle.std.specs.Prelude.{◌≡◌, None, ℕ, List};
ghost use Rattle.std.specs.Bool.{OnTrue};
ghost use Rattle.pw_outside.specs.Ports.{CountsFault, Rose, CountsFaults};
ghost use Rattle.pw_outside.specs.Reading.{Told};
ghost use Rattle.pw_outside.specs.Writing.{sink_state, Puts, Extends};
ghost use Rattle.rescue_run.specs.Rescuing.{IsRate, world};
ghost use Rattle.rescue_run.specs.Laws.{WritesFronts, IsMovieOf};
ghost use Rattle.workshop.specs.Options.{rate_of};
ghost use Rattle.workshop.specs.Status.{is_done, is_read_fault, is_settled, is_write_fault, usage_of};
ghost use Rattle.workshop.specs.Rescuing.{status_of, AnswersRescue, CompletesRescue};

use crate::options::Rate;
use crate::status::Status;
use pw_outside::{ByteSink, ByteStore};
use rescue_run::{RescueEnd, rescue_run};
use std::alloc::Global;

/// The status of a run's outcome.
fn status_of(end: RescueEnd) -> Status
    ensures { result ≡ status_of end }
{
    match end {
        RescueEnd::Done => Status::Done,
        RescueEnd::NoMemory => Status::NoMemory,
        RescueEnd::ReadFault => Status::ReadFault,
        RescueEnd::WriteFault => Status::WriteFault,
        RescueEnd::BadMovie { kind, place } => Status::BadMovie { kind, place },
    }
}

/// Makes a movie of the frames in a file, and prints where they are.
pub(crate) fn rescue<M: ByteStore, K: ByteSink>(
    alloc: Global,
    rate: Rate,
    movie: &mut M,
    out: &mut K,
    text: &mut K,
) -> Status
    requires rate { IsRate (rate_of rate) }
    ensures answer { Told (M.bytes movie.old) (λ file. AnswersRescue rate file result
        (world K.held K.taken out.old text.old) (world K.held K.taken out.new text.new)) }
    ensures fronts { Told (M.bytes movie.old) (λ file. WritesFronts (rate_of rate) file
        (world K.held K.taken out.old text.old) (world K.held K.taken out.new text.new)) }
    ensures complete { Told (M.bytes movie.old) (λ file. (Rose (M.faults movie.old) (M.faults movie.new) → ⊥)
        → (Rose (K.faults out.old) (K.faults out.new) → ⊥) → (Rose (K.faults text.old) (K.faults text.new) → ⊥)
        → CompletesRescue file result) }
    ensures read_again { Told (M.bytes movie.old) (λ file. OnTrue (is_done result)
        ((bytes : List ℕ) × Puts (sink_state (K.held out.old) (K.taken out.old))
        (sink_state (K.held out.new) (K.taken out.new)) bytes × IsMovieOf file bytes)) }
    ensures usage { usage_of result ≡ None }
    ensures out_extends { Extends (sink_state (K.held out.old) (K.taken out.old))
        (sink_state (K.held out.new) (K.taken out.new)) }
    ensures text_extends { Extends (sink_state (K.held text.old) (K.taken text.old))
        (sink_state (K.held text.new) (K.taken text.new)) }
    ensures settled { OnTrue (is_settled result)
        ((K.settled out.new ≡ K.taken out.new) × (K.settled text.new ≡ K.taken text.new)) }
    ensures bytes { M.bytes movie.new ≡ M.bytes movie.old }
    ensures read { CountsFault (M.faults movie.old) (M.faults movie.new) (is_read_fault result) }
    ensures write { CountsFaults (K.faults out.old) (K.faults out.new) (K.faults text.old) (K.faults text.new)
        (is_write_fault result) }
{
    status_of(rescue_run(alloc, movie, rate.num, rate.den, out, text))
}
