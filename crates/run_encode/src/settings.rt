//! The settings of a run's proof.

ghost use Rattle.std.specs.Prelude.{◌≡◌};
ghost use Rattle.run_encode.specs.Groups.{settings_of};

use crate::job::Job;
use rate_cert::Settings;

/// The settings that a run's proof states for all its records.
pub(crate) fn settings_for(job: &Job) -> Settings
    ensures { result ≡ settings_of job.now }
{
    let head = &job.head;
    Settings {
        form: u8::from(job.raw),
        group: job.group,
        width: head.width,
        height: head.height,
        chroma: head.chroma,
        depth: head.depth,
        alpha: head.alpha,
        interlace: head.interlace,
        log2: job.layout.log2,
        lo: job.lo,
        hi: job.hi,
        num: head.num,
        den: head.den,
        luma: job.weights.luma,
        chroma_weights: job.weights.chroma,
        budget: job.budget,
    }
}
