//! The coefficients of a picture, and the table of a group of pictures.

ghost use Rattle.std.specs.Prelude.{◌≡◌, ◌≤◌, length, map, IfOk};
ghost use Rattle.std.specs.List.{All};
ghost use Rattle.pic_raw.specs.Raw.{IsPicture};
ghost use Rattle.rate_build.specs.Tables.{table_of};
ghost use Rattle.run_encode.specs.Groups.{IsJob, IsFrameOf, coefficients_in, table_of_group};

use crate::job::Job;
use pw_outside::NoMemory;
use pw_planes::Picture;
use rate_build::{Coefficients, build_table, coefficients_of, group_table_is_table};
use rate_table::{FrameTable, join};
use std::alloc::Global;

/// The coefficients of a picture of the run's format.
pub(crate) fn coefficients_for(
    alloc: Global,
    job: &Job,
    picture: &Picture,
) -> Result<Coefficients, NoMemory>
    requires job { IsJob job.now }
    requires picture { IsPicture job.now.head picture.now }
    ensures value { IfOk result (λ c. c ≡ coefficients_in job.now picture.now) }
    ensures frame { IfOk result (IsFrameOf job.now) }
{
    coefficients_of(alloc, picture, &job.layout, job.head.alpha)
}

/// The tables of a group's frames, one for each.
fn frame_tables(
    alloc: Global,
    job: &Job,
    frames: &[Coefficients],
) -> Result<Vec<FrameTable>, NoMemory>
    requires job { IsJob job.now }
    ensures { IfOk result (λ tables.
        tables.items ≡ map (λ c. table_of c job.now.weights job.now.lo job.now.hi job.now.budget) frames.now) }
{
    let mut tables = Vec::new(alloc);
    'frames: for frame in frames {
        let table = build_table(alloc, frame, &job.weights, job.lo, job.hi, job.budget)?;
        match tables.push(table) {
            Ok(()) => {}
            Err(_) => return Err(NoMemory),
        }
    }
    Ok(tables)
}

/// The table of a group of frames under one budget.
pub(crate) fn table_for(
    alloc: Global,
    job: &Job,
    frames: &[Coefficients],
) -> Result<FrameTable, NoMemory>
    requires job { IsJob job.now }
    requires frames { All (IsFrameOf job.now) frames.now }
    requires some { 1 ≤ length frames.now }
    requires few { length frames.now ≤ job.now.group }
    ensures table { IfOk result (λ t. t ≡ table_of_group job.now frames.now) }
{
    group_table_is_table();
    let tables = frame_tables(alloc, job, frames)?;
    join(alloc, tables)
}
