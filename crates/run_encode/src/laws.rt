//! Laws of encoding, over the definitions alone.

ghost use Rattle.run_encode.specs.Laws.{EncodedHasHeadline, CutHasHeadline, EncodingGoesOn, EncodingIsOne};

use pr_frame::{written_has_length, written_stands};
use qt_movie::{written_frames_are_read, written_movie_is_read};
use rate_build::{
    coded_can_be_written, coefficients_are_of_layout, frame_has_table_size, group_table_is_table,
};
use rate_cert::proof_is_read_again;
use rate_layers::{kept_are_one, kept_exist, kept_is_good, multiplier_exists, multiplier_is_one};
use rate_table::{best_exists, best_is_one, good_is_least, none_fits_below_least};

/// The result of encoding has the headline, if no group's Pareto frontiers have too many pairs.
pub fn encoded_has_headline()
    ensures { EncodedHasHeadline }
{
    coefficients_are_of_layout();
    group_table_is_table();
    coded_can_be_written();
    frame_has_table_size();
    written_has_length();
    written_stands();
    kept_is_good();
    good_is_least();
    written_movie_is_read();
    written_frames_are_read();
    none_fits_below_least();
    multiplier_exists();
    multiplier_is_one();
    proof_is_read_again();
}

/// What was written of the first groups has the headline, if the next group's Pareto frontiers have too many pairs.
pub fn cut_has_headline()
    ensures { CutHasHeadline }
{
    coefficients_are_of_layout();
    group_table_is_table();
    coded_can_be_written();
    frame_has_table_size();
    written_has_length();
    written_stands();
    kept_is_good();
    good_is_least();
}

/// What was written of the first groups is a prefix of the result of encoding, and every list of pictures has such
/// a result.
pub fn encoding_goes_on()
    ensures { EncodingGoesOn }
{
    coefficients_are_of_layout();
    group_table_is_table();
    none_fits_below_least();
    best_exists();
    multiplier_exists();
    kept_exist();
}

/// The result of encoding is unique: one outcome, and one list of bytes for each sink.
pub fn encoding_is_one()
    ensures { EncodingIsOne }
{
    coefficients_are_of_layout();
    group_table_is_table();
    best_is_one();
    multiplier_is_one();
    kept_are_one();
}
