//! Laws over the definitions alone.

ghost use Rattle.qt_movie.specs.Laws.{FramesLieAtTheirPlaces, WrittenMovieIsRead, WrittenSamplesAreRead, WrittenFramesAreRead, WrittenTraksAreRead, LoneSamplesAreTold};

/// If each data atom's head is followed by exactly the announced number of bytes, the bytes at a frame's offset by
/// the movie atom are that frame's.
#[tactic(auto, using(crate::proofs::Frames::frames_lie))]
pub fn frames_lie_at_their_places()
    ensures { FramesLieAtTheirPlaces }
{}

/// A written movie is read back: one track with its kind, width and height, and the tables of its frames.
#[tactic(auto, using(crate::proofs::WrittenMovie::movie_read))]
pub fn written_movie_is_read()
    ensures { WrittenMovieIsRead }
{}

/// The samples that are read from a written movie are its frames, each with its offset, size and duration.
#[tactic(auto, using(crate::proofs::WrittenMovie::samples_read))]
pub fn written_samples_are_read()
    ensures { WrittenSamplesAreRead }
{}

/// The bytes of the samples that are read from a written movie are its frames.
#[tactic(auto, using(crate::proofs::WrittenMovie::frames_read))]
pub fn written_frames_are_read()
    ensures { WrittenFramesAreRead }
{}

/// A movie whose first track has ProRes pictures is read back, whatever tracks follow: its kind, width and height,
/// and the tables from which it was written.
pub fn written_traks_are_read()
    ensures { WrittenTraksAreRead }
{}

/// The tables of samples in chunks of their own agree, and expand to these samples.
pub fn lone_samples_are_told()
    ensures { LoneSamplesAreTold }
{}
