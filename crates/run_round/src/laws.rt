//! Laws of whole rounds, over the definitions alone. The functions do nothing; their contracts are the laws.

ghost use Rattle.run_round.specs.Laws.{EncodedIsChecked, EncodedIsDecoded, SmallIsChecked, CheckedIsCheckedAlone, CheckedIsCountedOnce};

use pic_raw::pictures_have_form;
use pr_frame::{written_has_length, written_stands};
use pr_quant::laws::named_weights_are_in_range;
use qt_movie::{written_frames_are_read, written_movie_is_read, written_samples_are_read};
use rate_build::{
    coded_can_be_written, coefficients_are_of_layout, frame_has_table_size, group_table_is_table,
};
use rate_cert::proof_is_read_again;
use rate_layers::{kept_is_good, multiplier_exists, multiplier_is_one};
use rate_table::{good_is_least, none_fits_below_least};
use run_encode::encoded_has_headline;
use run_look::checking_ends_once;

/// If encoding is done, so is checking: its proof by itself, and its proof with its movie and the encoded pictures.
/// There is one record for each group.
pub fn encoded_is_checked()
    ensures { EncodedIsChecked }
{
    named_weights_are_in_range();
    pictures_have_form();
    coefficients_are_of_layout();
    group_table_is_table();
    coded_can_be_written();
    frame_has_table_size();
    written_has_length();
    written_stands();
    kept_is_good();
    good_is_least();
    written_movie_is_read();
    written_samples_are_read();
    written_frames_are_read();
    none_fits_below_least();
    multiplier_exists();
    multiplier_is_one();
    proof_is_read_again();
}

/// If encoding stops because no choice fits for a group, checking its proof by itself is done. There is one record
/// for each group before that one, and one that says that no choice fits.
pub fn small_is_checked()
    ensures { SmallIsChecked }
{
    named_weights_are_in_range();
    pictures_have_form();
    encoded_has_headline();
}

/// If encoding is done, so is decoding its movie, at every depth and in either form. Each encoded picture has one
/// decoded picture; that one is what the coded frame shows, with the format and the rate of the encoded pictures.
pub fn encoded_is_decoded()
    ensures { EncodedIsDecoded }
{
    named_weights_are_in_range();
    pictures_have_form();
    coefficients_are_of_layout();
    group_table_is_table();
    coded_can_be_written();
    frame_has_table_size();
    written_has_length();
    written_stands();
    kept_is_good();
    good_is_least();
    written_movie_is_read();
    written_samples_are_read();
    written_frames_are_read();
}

/// If checking a proof with a movie and pictures is done, so is checking it by itself, with the same number of
/// records; so the number of records is unique.
pub fn checked_is_checked_alone()
    ensures alone { CheckedIsCheckedAlone }
    ensures once { CheckedIsCountedOnce }
{
    checking_ends_once();
}
