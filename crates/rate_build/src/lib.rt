//! The tables of pictures: the cost of each slice of a picture at each quantisation index.
#![tactic(auto)]

mod coding;
mod costs;
mod laws;
mod slices;
mod tables;
mod transform;
mod walk;
mod writing;

pub use coding::coded;
pub use costs::{Measure, measure_all};
pub use laws::{
    coded_can_be_written, coefficients_are_of_layout, frame_has_table_size, group_table_is_table,
    table_is_table,
};
pub use slices::{CoefficientSlices, Coefficients, SliceCoefficients};
pub use tables::{build_table, fixed_size};
pub use transform::coefficients_of;
pub use writing::{write_chosen, write_part};
