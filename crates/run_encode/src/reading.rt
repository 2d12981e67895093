//! Reading the pictures of a group.

ghost use Rattle.std.specs.Prelude.{◌≡◌, ◌≤◌, IsSome, IfOk, IfErr, false};
ghost use Rattle.pw_outside.specs.Ports.{CountsFault};
ghost use Rattle.pic_raw.specs.Any.{IsReader, head_of};
ghost use Rattle.run_encode.specs.Groups.{IsJob};
ghost use Rattle.run_encode.specs.Encoding.{is_done, is_write_fault, end_of_fault};
ghost use Rattle.run_encode.specs.inner.Steps.{left_by};
ghost use Rattle.run_encode.specs.inner.Turns.{is_read_end};
ghost use Rattle.run_encode.specs.inner.Over.{ReadsGroup, StopsGroup};

use crate::end::EncodeEnd;
use crate::job::Job;
use crate::tables::coefficients_for;
use pic_raw::{AnyReader, next_is_first};
use pic_y4m::PictureFault;
use pw_outside::ByteSource;
use rate_build::Coefficients;
use std::alloc::Global;

/// The outcome for an error of the pictures.
pub(crate) fn end_of(fault: PictureFault) -> EncodeEnd
    ensures { result ≡ end_of_fault fault }
{
    match fault {
        PictureFault::Bad { kind, place } => EncodeEnd::BadPictures { kind, place },
        PictureFault::Failed => EncodeEnd::ReadFault,
        PictureFault::NoMemory => EncodeEnd::NoMemory,
    }
}

/// Reads the pictures of the next group, and computes their coefficients. The group has fewer than `job.group`
/// pictures only at the end of the input.
pub(crate) fn read_group<S: ByteSource>(
    alloc: Global,
    job: &Job,
    reader: &mut AnyReader,
    pictures: &mut S,
) -> Result<Vec<Coefficients>, EncodeEnd>
    requires job { IsJob job.now }
    requires head { head_of reader.old ≡ job.now.head }
    requires reader { IsReader reader.old }
    ensures group { IfOk result (λ cs.
        ReadsGroup job.now reader.old reader.new (S.left pictures.old) (S.left pictures.new) cs.items) }
    ensures reader { IsReader reader.new }
    ensures stops { IfErr result (λ end.
        IsSome (S.left pictures.old) → StopsGroup job.now (left_by reader.old (S.left pictures.old)) end) }
    ensures kinds { IfErr result (λ end. (is_write_fault end ≡ false) × (is_done end ≡ false)) }
    ensures cause { CountsFault (S.faults pictures.old) (S.faults pictures.new) (is_read_end result) }
{
    next_is_first();
    let mut group = Vec::new(alloc);
    'group: for count in 0..job.group {
        let picture = match reader.next(alloc, pictures) {
            Ok(Some(picture)) => picture,
            Ok(None) => return Ok(group),
            Err(fault) => return Err(end_of(fault)),
        };
        match coefficients_for(alloc, job, &picture) {
            Ok(coefficients) => match group.push(coefficients) {
                Ok(()) => {}
                Err(_) => return Err(EncodeEnd::NoMemory),
            },
            Err(_) => return Err(EncodeEnd::NoMemory),
        }
    }
    Ok(group)
}
