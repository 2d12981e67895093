//! The marks of a proof file, and when a further record may follow.

ghost use Rattle.std.specs.Prelude.{◌≡◌};
ghost use Rattle.rate_cert.specs.Settings.{IsSettings};
ghost use Rattle.rate_cert.specs.Files.{goes_on};

use crate::proof::{FrameProof, Verdict};
use crate::settings::Settings;

/// The largest number of records of a proof.
pub const MAX_RECORDS: u32 = 1_000_000;

/// The mark of a record.
pub(crate) const RECORD: u8 = 0x52;

/// The mark of the end.
pub(crate) const END: u8 = 0x45;

/// Whether a record may follow this one: it says that a choice fits, and its group is complete.
pub(crate) fn goes_on(settings: &Settings, proof: &FrameProof) -> bool
    requires { IsSettings settings.now }
    ensures { result ≡ goes_on settings.now proof.now }
{
    let whole = u32::from(settings.group) * settings.frame_slices();
    match proof.verdict {
        Verdict::Fits { .. } => whole as usize <= proof.table.slices.as_slice().len(),
        Verdict::None { .. } => false,
    }
}
