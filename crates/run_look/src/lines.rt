//! The lines of a listing.

ghost use Rattle.std.specs.Prelude.{◌≡◌, ◌+◌, ◌-◌, ◌<◌, ◌≤◌, ◌++◌, OnOk, length, take, drop};
ghost use Rattle.std.specs.Fmt.{decimal};
ghost use Rattle.qt_tables.specs.Samples.{samples};
ghost use Rattle.run_look.specs.Listing.{track_words, size_words, track_line, sample_line, sample_lines};

use pw_outside::NoMemory;
use pw_text::{put_decimal, put_words};
use qt_movie::MovieReader;
use qt_tables::Sample;

/// Appends words and a number.
fn put_pair(text: &mut Vec<u8>, words: &str, number: u64) -> Result<(), NoMemory>
    ensures { OnOk result (text.new.items ≡ text.old.items ++ (words.now ++ decimal number)) }
{
    put_words(text, words)?;
    put_decimal(text, number)
}

/// Appends the four letters of a kind.
fn put_kind(text: &mut Vec<u8>, kind: [u8; 4]) -> Result<(), NoMemory>
    ensures { OnOk result (text.new.items ≡ text.old.items ++ kind) }
{
    match text.extend_from_slice(&kind) {
        Ok(()) => Ok(()),
        Err(_) => Err(NoMemory),
    }
}

/// Appends the words before the track's width.
fn put_track_words(text: &mut Vec<u8>, reader: &MovieReader) -> Result<(), NoMemory>
    ensures { OnOk result (text.new.items ≡ text.old.items ++ track_words reader.now) }
{
    let track = reader.track();
    put_pair(text, "track ", track.number)?;
    put_pair(text, " timescale ", u64::from(track.timescale))?;
    put_words(text, " kind ")?;
    put_kind(text, track.kind)
}

/// Appends width and height.
fn put_size_words(text: &mut Vec<u8>, reader: &MovieReader) -> Result<(), NoMemory>
    ensures { OnOk result (text.new.items ≡ text.old.items ++ size_words reader.now) }
{
    let track = reader.track();
    put_pair(text, " width ", u64::from(track.width))?;
    put_pair(text, " height ", u64::from(track.height))
}

/// Appends the line of the track.
pub(crate) fn put_track(text: &mut Vec<u8>, reader: &MovieReader) -> Result<(), NoMemory>
    ensures { OnOk result (text.new.items ≡ text.old.items ++ track_line reader.now) }
{
    put_track_words(text, reader)?;
    put_size_words(text, reader)?;
    put_pair(text, " samples ", u64::from(reader.track().samples))?;
    put_words(text, "\n")
}

/// Appends the line of a sample.
fn put_sample(text: &mut Vec<u8>, number: u32, sample: &Sample) -> Result<(), NoMemory>
    ensures { OnOk result (text.new.items ≡ text.old.items ++ sample_line number sample.now) }
{
    put_pair(text, "sample ", u64::from(number))?;
    put_pair(text, " at ", sample.at)?;
    put_pair(text, " size ", u64::from(sample.size))?;
    put_pair(text, " duration ", u64::from(sample.duration))?;
    put_words(text, "\n")
}

/// Appends the lines of the samples from number `from` up to `end`, which is left out.
pub(crate) fn put_samples(
    text: &mut Vec<u8>,
    reader: &MovieReader,
    from: u32,
    end: u32,
) -> Result<(), NoMemory>
    requires order { from ≤ end }
    requires there { end ≤ length reader.now.tables.sizes }
    ensures within { OnOk result (from < end → end ≤ length (samples reader.now.tables)) }
    ensures text { OnOk result (text.new.items ≡ text.old.items ++ sample_lines from (take (end - from) (drop from (samples reader.now.tables)))) }
{
    for number in from..end {
        put_sample(text, number, &reader.sample(number))?;
    }
    Ok(())
}
