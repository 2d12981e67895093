//! Laws of movies with sound, over the definitions alone. The functions do nothing; their contracts are the laws.

ghost use Rattle.sound_round.specs.Laws.{AddedPicturesAreRead, AddedSoundIsTakenOut, AddedIsReadAgain};

use qt_movie::{lone_samples_are_told, written_traks_are_read};

/// Adding sound to the pictures of a movie writes a movie of the same pictures: kind, width, height and time scale,
/// and for each sample the same bytes and the same duration.
pub fn added_pictures_are_read()
    ensures { AddedPicturesAreRead }
{
    written_traks_are_read();
    lone_samples_are_told();
}

/// After the sound of a WAV was added to the pictures of a movie, extracting the sound of the written movie is
/// done, and returns a WAV of the same form with the same sound.
pub fn added_sound_is_taken_out()
    ensures { AddedSoundIsTakenOut }
{}

/// After the sound of a WAV was added to the pictures of a movie, the written movie is read back as the movie's
/// pictures and the WAV's sound.
pub fn added_is_read_again()
    ensures { AddedIsReadAgain }
{
    added_pictures_are_read();
    added_sound_is_taken_out();
}
