//! Writes proof files. Takes no memory.

ghost use Rattle.std.specs.Prelude.{◌≡◌, ◌+◌, ◌≤◌, ◌++◌, ◌∷◌, OnOk, OnErr, IfOk, is_err, length, map};
ghost use Rattle.std.specs.List.{All, flat_map, sum_by};
ghost use Rattle.pw_outside.specs.Ports.{CountsFault};
ghost use Rattle.pw_outside.specs.Writing.{sink_state, Puts, PutsFront};
ghost use Rattle.rate_table.specs.Body.{body_bytes};
ghost use Rattle.rate_table.specs.Pairs.{RisesAndFalls};
ghost use Rattle.rate_cert.specs.Settings.{IsSettings};
ghost use Rattle.rate_cert.specs.Records.{said_by};
ghost use Rattle.rate_cert.specs.Layers.{most_pairs, layer_bytes};
ghost use Rattle.rate_cert.specs.Head.{chroma_number, depth_number, alpha_number, interlace_number, form_number, head_bytes};
ghost use Rattle.rate_cert.specs.Files.{IsFormat, CanBeSaid, MayStand, sums_bytes, said_bytes, record_bytes, end_bytes, no_records, further, goes_on};

use crate::gather::{ROOM, add, give, write};
use crate::layer_bytes::add_layers;
use crate::progress::{END, RECORD, goes_on};
use crate::proof::{FrameProof, Verdict};
use crate::settings::Settings;
use arrayvec::ArrayVec;
use pw_outside::{ByteSink, Failed};
use pw_planes::{AlphaKind, Chroma, Depth, Interlace};
use rate_table::{FrameTable, Pair, write_body};
use std::marker::Model;

/// The length of the head in bytes.
const HEAD: usize = 157;

fn chroma_byte(chroma: Chroma) -> u8
    ensures { result ≡ chroma_number chroma }
{
    match chroma {
        Chroma::C422 => 2,
        Chroma::C444 => 3,
    }
}

fn depth_byte(depth: Depth) -> u8
    ensures { result ≡ depth_number depth }
{
    match depth {
        Depth::D8 => 8,
        Depth::D10 => 10,
        Depth::D12 => 12,
    }
}

fn alpha_byte(alpha: AlphaKind) -> u8
    ensures { result ≡ alpha_number alpha }
{
    match alpha {
        AlphaKind::Absent => 0,
        AlphaKind::Eight => 8,
        AlphaKind::Sixteen => 16,
    }
}

fn interlace_byte(interlace: Interlace) -> u8
    ensures { result ≡ interlace_number interlace }
{
    match interlace {
        Interlace::Progressive => 0,
        Interlace::TopFirst => 1,
        Interlace::BottomFirst => 2,
    }
}

/// The byte of form and group.
fn form_byte(form: u8, group: u8) -> u8
    requires form { form ≤ 2 }
    requires group { (1 ≤ group) × (group ≤ 8) }
    ensures { result ≡ form_number form group }
{
    if form == 2 {
        16
    } else {
        form + 2 * (group - 1)
    }
}

/// Appends the piece.
fn append(bytes: &mut ArrayVec<u8, HEAD>, piece: &[u8])
    requires { length bytes.old.items + length piece.now ≤ HEAD }
    ensures { bytes.new.items ≡ bytes.old.items ++ piece.now }
{
    bytes.try_extend_from_slice(piece).unwrap();
}

/// The bytes of the head.
#[tactic(auto, unfolding(crate::specs::Head::head_bytes))]
fn bytes_of_head(format: u8, settings: &Settings) -> ArrayVec<u8, HEAD>
    requires settings { IsSettings settings.now }
    ensures { result.items ≡ head_bytes format settings.now }
{
    let mut bytes = ArrayVec::new();
    append(&mut bytes, b"PWPF");
    append(
        &mut bytes,
        &[format, form_byte(settings.form, settings.group)],
    );
    append(&mut bytes, &settings.width.to_be_bytes());
    append(&mut bytes, &settings.height.to_be_bytes());
    let forms = [
        chroma_byte(settings.chroma),
        depth_byte(settings.depth),
        alpha_byte(settings.alpha),
        interlace_byte(settings.interlace),
        settings.log2,
        settings.lo,
        settings.hi,
    ];
    append(&mut bytes, &forms);
    append(&mut bytes, &settings.num.to_be_bytes());
    append(&mut bytes, &settings.den.to_be_bytes());
    append(&mut bytes, &settings.luma);
    append(&mut bytes, &settings.chroma_weights);
    append(&mut bytes, &settings.budget.to_be_bytes());
    bytes
}

/// The bytes of a choice's size, error and multiplier.
fn bytes_of_sums(size: u32, error: u64, multiplier: u64) -> [u8; 20]
    ensures { result ≡ sums_bytes size error multiplier }
{
    let size = size.to_be_bytes();
    let error = error.to_be_bytes();
    let multiplier = multiplier.to_be_bytes();
    [
        size[0],
        size[1],
        size[2],
        size[3],
        error[0],
        error[1],
        error[2],
        error[3],
        error[4],
        error[5],
        error[6],
        error[7],
        multiplier[0],
        multiplier[1],
        multiplier[2],
        multiplier[3],
        multiplier[4],
        multiplier[5],
        multiplier[6],
        multiplier[7],
    ]
}

/// Writes the part after the table of a record whose choice fits, through a buffer.
fn write_fit<K: ByteSink>(
    sink: &mut K,
    format: u8,
    choice: &[u8],
    sums: &[u8; 20],
    layers: &[Vec<Pair>],
) -> Result<(), Failed>
    requires format { IsFormat format }
    requires few { sum_by length (map (λ l. l.items) layers.now) ≤ most_pairs }
    requires order { format ≡ 2 → All RisesAndFalls (map (λ l. l.items) layers.now) }
    ensures ok { OnOk result (Puts (sink_state (K.held sink.old) (K.taken sink.old))
        (sink_state (K.held sink.new) (K.taken sink.new)) (choice.now ++ (sums.now ++ flat_map (layer_bytes format)
        (map (λ l. l.items) layers.now)))) }
    ensures err { OnErr result (PutsFront (sink_state (K.held sink.old) (K.taken sink.old))
        (sink_state (K.held sink.new) (K.taken sink.new)) (choice.now ++ (sums.now ++ flat_map (layer_bytes format)
        (map (λ l. l.items) layers.now)))) }
    ensures settled { K.settled sink.old ≤ K.settled sink.new }
    ensures cause { CountsFault (K.faults sink.old) (K.faults sink.new) (is_err result) }
{
    let mut gathered = ArrayVec::new();
    add(sink, &mut gathered, choice)?;
    add(sink, &mut gathered, sums)?;
    add_layers(sink, &mut gathered, format, layers)?;
    give(sink, &mut gathered)?;
    Ok(())
}

/// Writes the mark of a record, its verdict, and its table.
fn write_table<K: ByteSink>(sink: &mut K, verdict: u8, table: &FrameTable) -> Result<(), Failed>
    ensures ok { OnOk result (Puts (sink_state (K.held sink.old) (K.taken sink.old))
        (sink_state (K.held sink.new) (K.taken sink.new)) (0x52 ∷ verdict ∷ body_bytes table.now)) }
    ensures err { OnErr result (PutsFront (sink_state (K.held sink.old) (K.taken sink.old))
        (sink_state (K.held sink.new) (K.taken sink.new)) (0x52 ∷ verdict ∷ body_bytes table.now)) }
    ensures settled { K.settled sink.old ≤ K.settled sink.new }
    ensures cause { CountsFault (K.faults sink.old) (K.faults sink.new) (is_err result) }
{
    write(sink, &[RECORD, verdict])?;
    write_body(table, sink)?;
    Ok(())
}

/// Writes a record with its mark.
#[tactic(auto, unfolding(crate::specs::Files::said_bytes, crate::specs::Files::fit_bytes))]
fn write_said<K: ByteSink>(
    sink: &mut K,
    format: u8,
    table: &FrameTable,
    verdict: &Verdict,
) -> Result<(), Failed>
    requires format { IsFormat format }
    requires said { CanBeSaid format table.now (said_by verdict.now) }
    ensures ok { OnOk result (Puts (sink_state (K.held sink.old) (K.taken sink.old))
        (sink_state (K.held sink.new) (K.taken sink.new)) (0x52 ∷ said_bytes format table.now (said_by verdict.now))) }
    ensures err { OnErr result (PutsFront (sink_state (K.held sink.old) (K.taken sink.old))
        (sink_state (K.held sink.new) (K.taken sink.new)) (0x52 ∷ said_bytes format table.now (said_by verdict.now))) }
    ensures settled { K.settled sink.old ≤ K.settled sink.new }
    ensures cause { CountsFault (K.faults sink.old) (K.faults sink.new) (is_err result) }
{
    match verdict {
        Verdict::Fits {
            choice,
            size,
            error,
            multiplier,
            layers,
        } => {
            let sums = bytes_of_sums(*size, *error, *multiplier);
            write_table(sink, 1, table)?;
            write_fit(sink, format, choice.as_slice(), &sums, layers.as_slice())?;
            Ok(())
        }
        Verdict::None { least } => {
            write_table(sink, 0, table)?;
            write(sink, &least.to_be_bytes())?;
            Ok(())
        }
    }
}

/// A proof file that is being written. It holds no bytes.
#[derive(Drop)]
pub struct ProofWriter {
    settings: Settings,
    format: u8,
    count: u32,
    more: bool,
}

impl Model for ProofWriter {
    ghost use Rattle.std.specs.Prelude.{◌≤◌};
    ghost use Rattle.rate_cert.specs.Settings.{IsSettings};
    ghost use Rattle.rate_cert.specs.Files.{Writing, IsFormat, most_records};

    ghost Value = { Writing };

    ghost view = { λ w. record { settings = w.settings; format = w.format; progress = record { count = w.count; more = w.more } } };

    ghost invariant = { λ w. IsSettings w.settings × IsFormat w.format × (w.count ≤ most_records) };
}

impl ProofWriter {
    /// Writes the head of a proof with these settings, in format 1 or 2.
    ///
    /// The error is `Failed` if a call of the sink failed; the sink then has a prefix of the head.
    pub fn begin<K: ByteSink>(
        sink: &mut K,
        settings: &Settings,
        format: u8,
    ) -> Result<ProofWriter, Failed>
        requires settings { IsSettings settings.now }
        requires format { IsFormat format }
        // The sink takes the head, or a prefix of it if a call of the sink failed.
        ensures ok { OnOk result (Puts (sink_state (K.held sink.old) (K.taken sink.old))
            (sink_state (K.held sink.new) (K.taken sink.new)) (head_bytes format settings.now)) }
        ensures err { OnErr result (PutsFront (sink_state (K.held sink.old) (K.taken sink.old))
            (sink_state (K.held sink.new) (K.taken sink.new)) (head_bytes format settings.now)) }
        ensures fresh { IfOk result (λ w. w ≡ record {
          settings = settings.now;
          format = format;
          progress
              = no_records;
        }) }
        ensures settled { K.settled sink.old ≤ K.settled sink.new }
        ensures cause { CountsFault (K.faults sink.old) (K.faults sink.new) (is_err result) }
    {
        write(sink, bytes_of_head(format, settings).as_slice())?;
        Ok(ProofWriter {
            settings: *settings,
            format,
            count: 0,
            more: true,
        })
    }

    /// Writes a record. Fewer than [`MAX_RECORDS`](crate::MAX_RECORDS) were written before, each of a whole group
    /// and with a fitting choice. A fitting verdict has one index for each slice, one layer more than slices, and
    /// at most 2^25 pairs; in format 2 the sizes of each layer rise and its errors fall.
    ///
    /// The error is `Failed` if a call of the sink failed; the sink then has a prefix of the record.
    pub fn put<K: ByteSink>(&mut self, sink: &mut K, proof: &FrameProof) -> Result<(), Failed>
        requires room { MayStand self.old.progress }
        requires said { CanBeSaid self.old.format proof.now.table proof.now.said }
        // The sink takes the encoding of the record, or a prefix of it if a call of the sink failed.
        ensures ok { OnOk result (Puts (sink_state (K.held sink.old) (K.taken sink.old))
            (sink_state (K.held sink.new) (K.taken sink.new)) (record_bytes self.old.format proof.now)) }
        ensures err { OnErr result (PutsFront (sink_state (K.held sink.old) (K.taken sink.old))
            (sink_state (K.held sink.new) (K.taken sink.new)) (record_bytes self.old.format proof.now)) }
        ensures after { OnOk result (self.new ≡ record {
          settings = self.old.settings;
          format = self.old.format;
          progress = further self.old.settings self.old.progress proof.now;
        }) }
        ensures kept { OnErr result (self.new ≡ self.old) }
        ensures settled { K.settled sink.old ≤ K.settled sink.new }
        ensures cause { CountsFault (K.faults sink.old) (K.faults sink.new) (is_err result) }
    {
        write_said(sink, self.format, &proof.table, &proof.verdict)?;
        self.more = goes_on(&self.settings, proof);
        self.count += 1;
        Ok(())
    }

    /// Writes the end.
    ///
    /// The error is `Failed` if a call of the sink failed; the sink then has a prefix of the end.
    pub fn end<K: ByteSink>(self, sink: &mut K) -> Result<(), Failed>
        // The sink takes the end, or a prefix of it if a call of the sink failed.
        ensures ok { OnOk result (Puts (sink_state (K.held sink.old) (K.taken sink.old))
            (sink_state (K.held sink.new) (K.taken sink.new)) (end_bytes self.progress.count)) }
        ensures err { OnErr result (PutsFront (sink_state (K.held sink.old) (K.taken sink.old))
            (sink_state (K.held sink.new) (K.taken sink.new)) (end_bytes self.progress.count)) }
        ensures settled { K.settled sink.old ≤ K.settled sink.new }
        ensures cause { CountsFault (K.faults sink.old) (K.faults sink.new) (is_err result) }
    {
        let count = self.count.to_be_bytes();
        write(sink, &[END, count[0], count[1], count[2], count[3]])
    }
}
