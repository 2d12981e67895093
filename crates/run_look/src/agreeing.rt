//! Checking a proof with its movie and its pictures.

ghost use Rattle.std.specs.Prelude.{◌≡◌, ◌+◌, ◌*◌, ◌<◌, ◌≤◌, ◌^◌, ℕ, Some, IsSome, IsTrue, ◌↔◌, OnOk, OnErr, IfOk, IfErr, IfSome, IfNone, false, length, slice_get, take, drop};
ghost use Rattle.std.specs.Bool.{OnTrue};
ghost use Rattle.std.specs.Io.KnownBytes.{IsAtEnd};
ghost use Rattle.pw_outside.specs.Ports.{CountsFault, Rose, CountsFaults};
ghost use Rattle.pw_outside.specs.Reading.{Told, bytes_of, rest_of};
ghost use Rattle.pw_outside.specs.Writing.{sink_state, Extends};
ghost use Rattle.pic_raw.specs.Any.{IsReader, head_of, left_of, place_of};
ghost use Rattle.pic_raw.specs.Raw.{IsPicture};
ghost use Rattle.pic_y4m.specs.Frames.{Pictures};
ghost use Rattle.pic_y4m.specs.HeadLine.{IsHead};
ghost use Rattle.pr_frame.specs.Reading.{frame_fault};
ghost use Rattle.pr_frame.specs.Stands.{FrameStands};
ghost use Rattle.pr_geom.specs.Layout.{IsLayoutOf};
ghost use Rattle.pr_head.specs.Faults.{told_fault, is_failed};
ghost use Rattle.qt_tables.specs.Samples.{samples};
ghost use Rattle.qt_tables.specs.Tables.{AreTables};
ghost use Rattle.rate_cert.specs.Settings.{IsSettings};
ghost use Rattle.rate_cert.specs.Records.{IsGood};
ghost use Rattle.rate_cert.specs.Files.{no_records, most_records};
ghost use Rattle.run_look.specs.declared.end.LookEnd.TheVariants as ends;
ghost use Rattle.run_look.specs.Ends.{is_done, is_read_fault, is_write_fault, is_stopped_by_source, AnswersEnd, IsReadersEnd};
ghost use Rattle.run_look.specs.Checking.{frames_in, PrintsCheck, CompletesCheck, Counts};
ghost use Rattle.run_look.specs.Agreeing.{Given, given, left_by, pictures_head, form_of, ReadsSample, HasFrame, TakesSample, TakesSamples, SamplesEnd, TakesPicture, TakesPictures, TakesGroup, TakesEnd, GivesPicture, AreLeft, AreFrames, RecordsWith, ChecksOn, Checks, CountsReads};

use crate::checking::{frames_of, next_good, print_records};
use crate::comparing::{is_as_said, is_picture_of};
use crate::end::LookEnd;
use crate::laws::agreeing_is_done_once;
use pic_raw::{AnyReader, next_is_first};
use pic_y4m::{Head, PictureFault};
use pr_frame::{CodedFrame, one_frame, read_frame};
use pr_geom::Layout;
use pr_head::FrameFault;
use pw_outside::{ByteSink, ByteSource, ByteStore, Span};
use pw_planes::Picture;
use qt_movie::MovieReader;
use qt_tables::{MovieFault, Sample, samples_are_counted};
use rate_cert::{FrameProof, ProofReader, Settings};
use std::alloc::Global;

/// The coded frame in `size` bytes of the movie's file from offset `at` on.
fn read_part<M: ByteStore>(
    alloc: Global,
    movie: &mut M,
    at: u64,
    size: u32,
) -> Result<CodedFrame, FrameFault>
    requires near { at < 2 ^ 63 }
    requires inside { Told (M.bytes movie.old) (λ file. at + size ≤ length file) }
    ensures stands { IfOk result (λ f. Told (M.bytes movie.old) (λ file. FrameStands (take size (drop at file)) f)) }
    ensures fault { IfErr result (λ e. Told (M.bytes movie.old) (λ file. IfSome (told_fault e) (λ fault. frame_fault (take size (drop at file)) ≡ Some fault))) }
    ensures bytes { M.bytes movie.new ≡ M.bytes movie.old }
    ensures cause { CountsFault (M.faults movie.old) (M.faults movie.new) (is_failed result) }
{
    let mut span = Span::new(movie, at, at + u64::from(size));
    read_frame(alloc, &mut span, size)
}

/// The coded frame of a sample. Errors in this order: its place in the file, its reading, its frame's fault.
fn read_sample<M: ByteStore>(
    alloc: Global,
    reader: &MovieReader,
    number: u32,
    sample: &Sample,
    movie: &mut M,
) -> Result<CodedFrame, LookEnd>
    requires there { number < length reader.now.tables.sizes }
    requires sample { slice_get (samples reader.now.tables) number ≡ Some sample.now }
    requires near { sample.now.at < 2 ^ 63 }
    ensures reads { Told (M.bytes movie.old) (λ file. ReadsSample file sample.now number result) }
    ensures end { IfErr result IsReadersEnd }
    ensures bytes { M.bytes movie.new ≡ M.bytes movie.old }
    ensures cause { CountsFault (M.faults movie.old) (M.faults movie.new) (is_stopped_by_source result) }
{
    match reader.place(movie, number) {
        Ok(_) => {}
        Err(MovieFault::Bad { kind, place }) => return Err(LookEnd::BadMovie { kind, place }),
        Err(MovieFault::Failed) => return Err(LookEnd::ReadFault),
        Err(MovieFault::NoMemory) => return Err(LookEnd::NoMemory),
    }
    match read_part(alloc, movie, sample.at, sample.size) {
        Ok(frame) => Ok(frame),
        Err(FrameFault::Bad { kind, place }) => Err(LookEnd::BadFrame {
            sample: number,
            kind,
            place,
        }),
        Err(FrameFault::Failed) => Err(LookEnd::ReadFault),
        Err(FrameFault::NoMemory) => Err(LookEnd::NoMemory),
    }
}

/// Reads the sample of frame k of a good record with `first` frames before it, and compares it with the record.
///
/// The error is how checking ends there.
fn take_sample<M: ByteStore>(
    alloc: Global,
    settings: &Settings,
    group: &FrameProof,
    first: u32,
    k: u32,
    reader: &MovieReader,
    movie: &mut M,
) -> Result<CodedFrame, LookEnd>
    requires tables { AreTables reader.now.tables }
    requires settings { IsSettings settings.now }
    requires good { IsGood settings.now group.now }
    requires there { k < frames_in settings.now group.now }
    requires small { k < 8 }
    requires few { first ≤ 8 * most_records }
    ensures takes { Told (M.bytes movie.old) (λ file. (ps : Pictures) → TakesSample (given file (samples reader.now.tables) ps) settings.now group.now first k result) }
    ensures end { IfErr result IsReadersEnd }
    ensures bytes { M.bytes movie.new ≡ M.bytes movie.old }
    ensures cause { CountsFault (M.faults movie.old) (M.faults movie.new) (is_stopped_by_source result) }
{
    samples_are_counted();
    let number = first + k;
    let refused = LookEnd::Refused {
        frame: number,
        clause: 9,
    };
    if number >= reader.track().samples {
        return Err(refused);
    }
    let sample = reader.sample(number);
    let frame = read_sample(alloc, reader, number, &sample, movie)?;
    match is_as_said(alloc, settings, group, k, sample.size, &frame) {
        Ok(true) => Ok(frame),
        Ok(false) => Err(refused),
        Err(_) => Err(LookEnd::NoMemory),
    }
}

/// Reads the samples of a good record with `first` frames before it. Returns their coded frames.
///
/// The error is how checking ends there.
fn take_samples<M: ByteStore>(
    alloc: Global,
    settings: &Settings,
    group: &FrameProof,
    first: u32,
    reader: &MovieReader,
    movie: &mut M,
) -> Result<Vec<CodedFrame>, LookEnd>
    requires tables { AreTables reader.now.tables }
    requires settings { IsSettings settings.now }
    requires good { IsGood settings.now group.now }
    requires few { first ≤ 8 * most_records }
    ensures takes { IfOk result (λ frames. Told (M.bytes movie.old) (λ file. (ps : Pictures) → TakesSamples (given file (samples reader.now.tables) ps) settings.now group.now first frames.items)) }
    ensures number { IfOk result (λ frames. length frames.items ≡ frames_in settings.now group.now) }
    ensures stops { IfErr result (λ end. Told (M.bytes movie.old) (λ file. (ps : Pictures) → AnswersEnd end (SamplesEnd (given file (samples reader.now.tables) ps) settings.now group.now first))) }
    ensures end { IfErr result IsReadersEnd }
    ensures bytes { M.bytes movie.new ≡ M.bytes movie.old }
    ensures cause { CountsFault (M.faults movie.old) (M.faults movie.new) (is_stopped_by_source result) }
{
    let mut frames = Vec::new(alloc);
    for k in 0..frames_of(settings, group) {
        let frame = take_sample(alloc, settings, group, first, k, reader, movie)?;
        if frames.push(frame).is_err() {
            return Err(LookEnd::NoMemory);
        }
    }
    Ok(frames)
}

/// The next picture; none at the end.
///
/// The error is how checking ends there.
fn next_picture<S: ByteSource>(
    alloc: Global,
    reader: &mut AnyReader,
    pictures: &mut S,
) -> Result<Option<Picture>, LookEnd>
    requires reader { IsReader reader.old }
    ensures told { IsSome (S.left pictures.old) → OnOk result (IsSome (S.left pictures.new)) }
    ensures gives { IsSome (S.left pictures.old) → (g : Given) (n : ℕ) → AreLeft g n (left_by reader.old (S.left pictures.old)) → GivesPicture g n result (left_by reader.new (S.left pictures.new)) }
    ensures picture { IfOk result (λ p. IfSome p (IsPicture (head_of reader.old))) }
    ensures head { head_of reader.new ≡ head_of reader.old }
    ensures reader { IsReader reader.new }
    ensures whole { IfOk result (λ p. IfNone p (IsAtEnd (S.left pictures.new))) }
    ensures end { IfErr result IsReadersEnd }
    ensures cause { CountsFault (S.faults pictures.old) (S.faults pictures.new) (is_stopped_by_source result) }
{
    next_is_first();
    match reader.next(alloc, pictures) {
        Ok(picture) => Ok(picture),
        Err(PictureFault::Bad { kind, place }) => Err(LookEnd::BadPictures { kind, place }),
        Err(PictureFault::Failed) => Err(LookEnd::ReadFault),
        Err(PictureFault::NoMemory) => Err(LookEnd::NoMemory),
    }
}

/// Reads the picture of frame k of a good record with `first` frames before it, and compares it with its sample.
///
/// The error is how checking ends there.
fn take_picture<S: ByteSource>(
    alloc: Global,
    settings: &Settings,
    layout: &Layout,
    group: &FrameProof,
    first: u32,
    k: u32,
    frame: &CodedFrame,
    reader: &mut AnyReader,
    pictures: &mut S,
) -> Result<(), LookEnd>
    requires settings { IsSettings settings.now }
    requires layout { IsLayoutOf layout.now settings.now.width settings.now.height settings.now.log2 settings.now.interlace settings.now.chroma }
    requires good { IsGood settings.now group.now }
    requires there { k < frames_in settings.now group.now }
    requires small { k < 8 }
    requires few { first ≤ 8 * most_records }
    requires head { head_of reader.old ≡ pictures_head settings.now }
    requires reader { IsReader reader.old }
    ensures told { IsSome (S.left pictures.old) → OnOk result (IsSome (S.left pictures.new)) }
    ensures takes { IsSome (S.left pictures.old) → (g : Given) → AreLeft g (first + k) (left_by reader.old (S.left pictures.old)) → HasFrame g (first + k) frame.now
        → TakesPicture g layout.now settings.now group.now first k result (left_by reader.new (S.left pictures.new)) }
    ensures head { head_of reader.new ≡ head_of reader.old }
    ensures reader { IsReader reader.new }
    ensures end { IfErr result IsReadersEnd }
    ensures cause { CountsFault (S.faults pictures.old) (S.faults pictures.new) (is_stopped_by_source result) }
{
    one_frame();
    let refused = LookEnd::Refused {
        frame: first + k,
        clause: 10,
    };
    let Some(picture) = next_picture(alloc, reader, pictures)? else {
        return Err(refused);
    };
    match is_picture_of(alloc, settings, layout, group, k, frame, &picture) {
        Ok(true) => Ok(()),
        Ok(false) => Err(refused),
        Err(_) => Err(LookEnd::NoMemory),
    }
}

/// Reads the pictures of a good record with `first` frames before it, whose samples stand for these frames.
///
/// The error is how checking ends there.
fn take_pictures<S: ByteSource>(
    alloc: Global,
    settings: &Settings,
    layout: &Layout,
    group: &FrameProof,
    first: u32,
    frames: &[CodedFrame],
    reader: &mut AnyReader,
    pictures: &mut S,
) -> Result<(), LookEnd>
    requires settings { IsSettings settings.now }
    requires layout { IsLayoutOf layout.now settings.now.width settings.now.height settings.now.log2 settings.now.interlace settings.now.chroma }
    requires good { IsGood settings.now group.now }
    requires number { length frames.now ≡ frames_in settings.now group.now }
    requires few { first ≤ 8 * most_records }
    requires head { head_of reader.old ≡ pictures_head settings.now }
    requires reader { IsReader reader.old }
    ensures told { IsSome (S.left pictures.old) → OnOk result (IsSome (S.left pictures.new)) }
    ensures takes { IsSome (S.left pictures.old) → (g : Given) → AreLeft g first (left_by reader.old (S.left pictures.old)) → AreFrames g first frames.now
        → TakesPictures g layout.now settings.now group.now first result (left_by reader.new (S.left pictures.new)) }
    ensures head { head_of reader.new ≡ head_of reader.old }
    ensures reader { IsReader reader.new }
    ensures end { IfErr result IsReadersEnd }
    ensures cause { CountsFault (S.faults pictures.old) (S.faults pictures.new) (is_stopped_by_source result) }
{
    for k in 0..frames_of(settings, group) {
        let frame = &frames[k as usize];
        take_picture(
            alloc, settings, layout, group, first, k, frame, reader, pictures,
        )?;
    }
    Ok(())
}

/// Reads the samples of a good record with `first` frames before it, then their pictures, and compares them with
/// the record.
///
/// The error is how checking ends there.
fn take_group<S: ByteSource, M: ByteStore>(
    alloc: Global,
    settings: &Settings,
    layout: &Layout,
    group: &FrameProof,
    first: u32,
    reader: &MovieReader,
    movie: &mut M,
    shown: &mut AnyReader,
    pictures: &mut S,
) -> Result<(), LookEnd>
    requires tables { AreTables reader.now.tables }
    requires settings { IsSettings settings.now }
    requires layout { IsLayoutOf layout.now settings.now.width settings.now.height settings.now.log2 settings.now.interlace settings.now.chroma }
    requires good { IsGood settings.now group.now }
    requires few { first ≤ 8 * most_records }
    requires head { head_of shown.old ≡ pictures_head settings.now }
    requires reader { IsReader shown.old }
    ensures told { IsSome (S.left pictures.old) → OnOk result (IsSome (S.left pictures.new)) }
    ensures takes { Told (M.bytes movie.old) (λ file. IsSome (S.left pictures.old) → (ps : Pictures) → AreLeft (given file (samples reader.now.tables) ps) first (left_by shown.old (S.left pictures.old))
        → TakesGroup (given file (samples reader.now.tables) ps) layout.now settings.now group.now first result (left_by shown.new (S.left pictures.new))) }
    ensures head { head_of shown.new ≡ head_of shown.old }
    ensures reader { IsReader shown.new }
    ensures end { IfErr result IsReadersEnd }
    ensures bytes { M.bytes movie.new ≡ M.bytes movie.old }
    ensures cause { CountsFaults (M.faults movie.old) (M.faults movie.new) (S.faults pictures.old) (S.faults pictures.new) (is_stopped_by_source result) }
{
    let frames = take_samples(alloc, settings, group, first, reader, movie)?;
    take_pictures(
        alloc, settings, layout, group, first, &frames, shown, pictures,
    )
}

/// Checks that no further sample, and then no further picture, comes after `frames` frames.
///
/// The error is how checking ends there.
fn take_end<S: ByteSource>(
    alloc: Global,
    frames: u32,
    reader: &MovieReader,
    shown: &mut AnyReader,
    pictures: &mut S,
) -> Result<(), LookEnd>
    requires tables { AreTables reader.now.tables }
    requires reader { IsReader shown.old }
    ensures takes { IsSome (S.left pictures.old) → (g : Given) → g.samples ≡ samples reader.now.tables → AreLeft g frames (left_by shown.old (S.left pictures.old)) → TakesEnd g frames result }
    ensures whole { OnOk result (IsAtEnd (S.left pictures.new)) }
    ensures end { IfErr result IsReadersEnd }
    ensures cause { CountsFault (S.faults pictures.old) (S.faults pictures.new) (is_stopped_by_source result) }
{
    samples_are_counted();
    if frames < reader.track().samples {
        return Err(LookEnd::Refused {
            frame: frames,
            clause: 9,
        });
    }
    let Some(_) = next_picture(alloc, shown, pictures)? else {
        return Ok(());
    };
    Err(LookEnd::Refused {
        frame: frames,
        clause: 10,
    })
}

/// Checks all records with their samples and pictures. Returns the number of records.
///
/// The error is how checking ends.
fn check_groups<S: ByteSource, M: ByteStore>(
    alloc: Global,
    layout: &Layout,
    records: &mut ProofReader,
    proof: &mut S,
    reader: &MovieReader,
    movie: &mut M,
    shown: &mut AnyReader,
    pictures: &mut S,
) -> Result<u32, LookEnd>
    requires settings { IsSettings records.old.settings }
    requires fresh { records.old.progress ≡ no_records }
    requires going { records.old.ended ≡ false }
    requires layout { IsLayoutOf layout.now records.old.settings.width records.old.settings.height records.old.settings.log2 records.old.settings.interlace records.old.settings.chroma }
    requires tables { AreTables reader.now.tables }
    requires head { head_of shown.old ≡ pictures_head records.old.settings }
    requires reader { IsReader shown.old }
    ensures answer { IsSome (S.left proof.old) → Told (M.bytes movie.old) (λ file. IsSome (S.left pictures.old) → (ps : Pictures) → ps ≡ left_by shown.old (S.left pictures.old)
        → Counts (RecordsWith (given file (samples reader.now.tables) ps) records.old.format records.old.settings (rest_of records.old.place (S.left proof.old))) result) }
    ensures few { IfOk result (λ n. n ≤ most_records) }
    ensures end { IfErr result IsReadersEnd }
    ensures whole { OnOk result (IsAtEnd (S.left proof.new) × IsAtEnd (S.left pictures.new)) }
    ensures bytes { M.bytes movie.new ≡ M.bytes movie.old }
    ensures cause { CountsReads (S.faults proof.old) (S.faults proof.new) (M.faults movie.old) (M.faults movie.new) (S.faults pictures.old) (S.faults pictures.new) (is_stopped_by_source result) }
{
    let settings = records.settings();
    let mut count: u32 = 0;
    let mut frames: u32 = 0;
    while let Some(group) = next_good(alloc, records, proof, frames)? {
        take_group(
            alloc, &settings, layout, &group, frames, reader, movie, shown, pictures,
        )?;
        count += 1;
        frames += frames_of(&settings, &group);
    }
    take_end(alloc, frames, reader, shown, pictures)?;
    Ok(count)
}

/// The header of pictures with these settings.
fn head_for(settings: &Settings) -> Head
    ensures { result ≡ pictures_head settings.now }
{
    Head {
        width: settings.width,
        height: settings.height,
        chroma: settings.chroma,
        depth: settings.depth,
        alpha: settings.alpha,
        interlace: settings.interlace,
        num: settings.num,
        den: settings.den,
    }
}

/// The form of the pictures, if the settings determine it.
fn form_for(settings: &Settings) -> Option<Head>
    requires settings { IsSettings settings.now }
    ensures form { result ≡ form_of settings.now }
    ensures limits { IfSome result IsHead }
{
    if settings.form == 1 {
        Some(head_for(settings))
    } else {
        None
    }
}

/// Whether a header of pictures has all fields of these settings.
fn has_head(settings: &Settings, head: &Head) -> bool
    ensures { IsTrue result ↔ (head.now ≡ pictures_head settings.now) }
{
    *head == head_for(settings)
}

/// The layout of slices of pictures with these settings.
fn layout_for(settings: &Settings) -> Layout
    requires { IsSettings settings.now }
    ensures { IsLayoutOf result settings.now.width settings.now.height settings.now.log2 settings.now.interlace settings.now.chroma }
{
    match Layout::new(
        settings.width,
        settings.height,
        settings.log2,
        settings.interlace,
        settings.chroma,
    ) {
        Ok(layout) => layout,
        Err(_) => unreachable!(),
    }
}

/// Reads the movie's tables and the header of the pictures, and checks all records with them. Returns the number of
/// records.
///
/// The error is how checking ends.
fn check_with<S: ByteSource, M: ByteStore>(
    alloc: Global,
    records: &mut ProofReader,
    proof: &mut S,
    pictures: &mut S,
    movie: &mut M,
) -> Result<u32, LookEnd>
    requires settings { IsSettings records.old.settings }
    requires fresh { records.old.progress ≡ no_records }
    requires going { records.old.ended ≡ false }
    ensures answer { IsSome (S.left proof.old) → Told (M.bytes movie.old) (λ file. Told (S.left pictures.old) (λ shown.
        Counts (ChecksOn file shown records.old.format records.old.settings (rest_of records.old.place (S.left proof.old))) result)) }
    ensures few { IfOk result (λ n. n ≤ most_records) }
    ensures end { IfErr result IsReadersEnd }
    ensures whole { OnOk result (IsAtEnd (S.left proof.new) × IsAtEnd (S.left pictures.new)) }
    ensures bytes { M.bytes movie.new ≡ M.bytes movie.old }
    ensures cause { CountsReads (S.faults proof.old) (S.faults proof.new) (M.faults movie.old) (M.faults movie.new) (S.faults pictures.old) (S.faults pictures.new) (is_stopped_by_source result) }
{
    let settings = records.settings();
    let reader = match MovieReader::start(alloc, movie) {
        Ok(reader) => reader,
        Err(MovieFault::Bad { kind, place }) => return Err(LookEnd::BadMovie { kind, place }),
        Err(MovieFault::Failed) => return Err(LookEnd::ReadFault),
        Err(MovieFault::NoMemory) => return Err(LookEnd::NoMemory),
    };
    let refused = LookEnd::Refused {
        frame: 0,
        clause: 10,
    };
    if settings.form == 2 {
        return Err(refused);
    }
    let form = form_for(&settings);
    let mut shown = match AnyReader::start(pictures, form) {
        Ok(shown) => shown,
        Err(PictureFault::Bad { kind, place }) => return Err(LookEnd::BadPictures { kind, place }),
        Err(PictureFault::Failed) => return Err(LookEnd::ReadFault),
        Err(PictureFault::NoMemory) => return Err(LookEnd::NoMemory),
    };
    if !has_head(&settings, &shown.head()) {
        return Err(refused);
    }
    let layout = layout_for(&settings);
    check_groups(
        alloc, &layout, records, proof, &reader, movie, &mut shown, pictures,
    )
}

/// Reads a proof to its end, and checks it with a movie and pictures. Returns the number of records.
fn check_given<S: ByteSource, M: ByteStore>(
    alloc: Global,
    proof: &mut S,
    pictures: &mut S,
    movie: &mut M,
) -> Result<u32, LookEnd>
    ensures answer { Told (S.left proof.old) (λ bytes. Told (M.bytes movie.old) (λ file. Told (S.left pictures.old) (λ shown. Counts (Checks bytes file shown) result))) }
    ensures few { IfOk result (λ n. n ≤ most_records) }
    ensures end { IfErr result IsReadersEnd }
    ensures whole { OnOk result (IsAtEnd (S.left proof.new) × IsAtEnd (S.left pictures.new)) }
    ensures bytes { M.bytes movie.new ≡ M.bytes movie.old }
    ensures cause { CountsReads (S.faults proof.old) (S.faults proof.new) (M.faults movie.old) (M.faults movie.new) (S.faults pictures.old) (S.faults pictures.new) (is_stopped_by_source result) }
{
    let mut records = ProofReader::start(proof)?;
    check_with(alloc, &mut records, proof, pictures, movie)
}

/// Checks a proof with its movie and its pictures: its records, in order, by all clauses. After the proof's header
/// the movie's tables are read, then the header of the pictures. After each record come the samples of its frames,
/// each with its frame's fault and clause 9, then their pictures, each with clause 10.
///
/// Clause 9: a frame's sample has the header, the slicing, the size and the indices of the settings and the choice.
/// Clause 10: its picture has the record's table, and the sample stands for its coefficients quantised by the
/// choice, with its alpha. Holds one record, the coded frames of its group and one picture at a time.
pub fn check_run<S: ByteSource, M: ByteStore, K: ByteSink>(
    alloc: Global,
    proof: &mut S,
    pictures: &mut S,
    movie: &mut M,
    text: &mut K,
) -> LookEnd
    // If the bytes of the proof, the movie and the pictures are visible, they determine the result: BadProof,
    // BadMovie, BadPictures and BadFrame come with the first fault, Refused with the first clause that fails at its
    // frame, whichever comes first.
    ensures answer { Told (S.left proof.old) (λ bytes. Told (M.bytes movie.old) (λ file. Told (S.left pictures.old) (λ shown.
        AnswersEnd result (λ end. (records : ℕ) × Checks bytes file shown end records)))) }
    // After Done the whole line with the number of records was appended; after a fault of writing a prefix of it,
    // and after any other result nothing.
    ensures text { Told (S.left proof.old) (λ bytes. Told (M.bytes movie.old) (λ file. Told (S.left pictures.old) (λ shown.
        PrintsCheck result (Checks bytes file shown ends.Done) (sink_state (K.held text.old) (K.taken text.old)) (sink_state (K.held text.new) (K.taken text.new))))) }
    // If no port failed and memory lasted, a proof whose records are good and agree with the movie and the pictures
    // is done.
    ensures complete { Told (S.left proof.old) (λ bytes. Told (M.bytes movie.old) (λ file. Told (S.left pictures.old) (λ shown.
        (records : ℕ) → Checks bytes file shown ends.Done records
        → (Rose (S.faults proof.old) (S.faults proof.new) → ⊥) → (Rose (M.faults movie.old) (M.faults movie.new) → ⊥)
        → (Rose (S.faults pictures.old) (S.faults pictures.new) → ⊥) → (Rose (K.faults text.old) (K.faults text.new) → ⊥) → CompletesCheck result))) }
    // Visible or opaque, the text extends what was held.
    ensures extends { Extends (sink_state (K.held text.old) (K.taken text.old)) (sink_state (K.held text.new) (K.taken text.new)) }
    ensures settled { OnTrue (is_done result) (K.settled text.new ≡ K.taken text.new) }
    // After Done the proof and the pictures were read to their ends, visible or opaque.
    ensures end { OnTrue (is_done result) (IsAtEnd (S.left proof.new) × IsAtEnd (S.left pictures.new)) }
    ensures bytes { M.bytes movie.new ≡ M.bytes movie.old }
    // A port fault is returned only if that port's counter rose; every other result leaves the counters unchanged.
    ensures read { CountsReads (S.faults proof.old) (S.faults proof.new) (M.faults movie.old) (M.faults movie.new) (S.faults pictures.old) (S.faults pictures.new) (is_read_fault result) }
    ensures write { CountsFault (K.faults text.old) (K.faults text.new) (is_write_fault result) }
{
    agreeing_is_done_once();
    match check_given(alloc, proof, pictures, movie) {
        Ok(records) => print_records(alloc, records, " yes\n", text),
        Err(end) => end,
    }
}
