//! Laws of rescuing, over the definitions alone. The functions do nothing; their contracts are the laws.

ghost use Rattle.rescue_run.specs.Laws.{RescuingGoesOn, RescuingIsOne, RunsWriteFronts, RescuedMovieIsRead};

use pr_frame::{frame_has_no_fault, frame_or_fault, one_frame};
use qt_movie::{written_frames_are_read, written_movie_is_read};

/// Every file has frames and an outcome of rescuing; the first frames of the file are a prefix of these frames.
pub fn rescuing_goes_on()
    ensures { RescuingGoesOn }
{
    one_frame();
    frame_or_fault();
    frame_has_no_fault();
}

/// The frames and the outcome of rescuing are unique.
pub fn rescuing_is_one()
    ensures { RescuingIsOne }
{
    one_frame();
}

/// After any result of a run both sinks hold prefixes of what rescuing writes.
pub fn runs_write_fronts()
    ensures { RunsWriteFronts }
{
    rescuing_goes_on();
}

/// The movie of a file's frames is read back as them: as many samples as the chain has frames, each byte for byte
/// the frame at its offset.
pub fn rescued_movie_is_read()
    ensures { RescuedMovieIsRead }
{
    written_movie_is_read();
    written_frames_are_read();
}
