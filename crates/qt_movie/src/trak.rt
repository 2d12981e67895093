//! One track of a movie, as values and tables.

use std::marker::Model;

/// The media of a track.
#[derive(Clone, Copy, Debug, PartialEq, Eq)]
pub enum Media {
    /// Pictures of this kind, width and height, with `depth` bits per pixel.
    Video {
        kind: [u8; 4],
        width: u16,
        height: u16,
        depth: u16,
    },
    /// Plain 16-bit little-endian PCM sound: the number of channels, and of sample frames per second.
    Sound {
        channels: u8,
        rate: u16,
    },
}

/// A track: its number, durations, samples and their offsets.
#[derive(Drop)]
pub struct Trak {
    /// Its number in the movie, from 1.
    pub number: u32,
    /// Its duration in units of the movie's time scale.
    pub movie_duration: u32,
    /// The time scale of the media: units per second.
    pub timescale: u32,
    /// The duration of the media in these units.
    pub duration: u32,
    /// Its media.
    pub media: Media,
    /// Runs of samples with one duration: the number of samples and the duration.
    pub stts: Vec<(u32, u32)>,
    /// Runs of chunks: the first chunk, from 1, the samples per chunk, and their description, from 1.
    pub stsc: Vec<(u32, u32, u32)>,
    /// One size for all samples, or 0.
    pub common: u32,
    /// The number of samples.
    pub count: u32,
    /// If there is no common size, the size of each sample.
    pub sizes: Vec<u32>,
    /// The offset of each chunk.
    pub offsets: Vec<u64>,
}

impl Model for Trak {
    ghost use Rattle.qt_movie.specs.Trak.{TrakValues};

    ghost Value = { TrakValues };

    ghost view = { λ t. record {
      number = t.number;
      movie_duration = t.movie_duration;
      timescale = t.timescale;
      duration = t.duration;
      media = t.media;
      stts = t.stts.items;
      stsc = t.stsc.items;
      common = t.common;
      count = t.count;
      sizes = t.sizes.items;
      offsets = t.offsets.items;
    } };
}
