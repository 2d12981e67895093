//! The options of the command line, their values, and the numeric operands.

ghost use Rattle.std.specs.Prelude.{◌≡◌, ◌≤◌, ◌<◌, IfSome};
ghost use Rattle.workshop.specs.Options.{name_of_option, matrix_named, interlace_named, form_named, no_values, is_given, with_value, with_number, AreValues};

use crate::raw_form::{depth_in, number_within, rate_in, raw_form};
use pic_y4m::Head;
use pr_quant::Matrix;
use pw_planes::{Depth, Interlace, MAX_HEIGHT, MAX_WIDTH};
use run_decode::Form;

/// The largest budget of a group of frames, in bytes.
pub(crate) const MAX_BUDGET: u32 = 2_147_483_647;

/// The largest quantisation index.
const MAX_INDEX: u64 = 224;

/// The largest number of synthetic pictures.
const MAX_FRAMES: u64 = 100;

/// A frame rate: `num` frames in `den` seconds.
#[derive(Clone, Copy, Debug, PartialEq, Eq)]
pub struct Rate {
    /// The numerator, 1 to 1,000,000.
    pub num: u32,
    /// The denominator, 1 to 4,000.
    pub den: u32,
}

/// An option of a command.
#[derive(Clone, Copy, Debug, PartialEq, Eq)]
pub(crate) enum OptionName {
    Budget,
    Lo,
    Hi,
    Log,
    Matrix,
    Raw,
    Interlace,
    Group,
    Proof,
    Depth,
    Form,
    Rate,
    Cap,
}

impl OptionName {
    /// The option's name, without the leading dashes.
    pub(crate) fn word(self) -> &'static str
        ensures { result.now ≡ name_of_option self }
    {
        match self {
            OptionName::Budget => "budget",
            OptionName::Lo => "lo",
            OptionName::Hi => "hi",
            OptionName::Log => "log",
            OptionName::Matrix => "matrix",
            OptionName::Raw => "raw",
            OptionName::Interlace => "interlace",
            OptionName::Group => "group",
            OptionName::Proof => "proof",
            OptionName::Depth => "depth",
            OptionName::Form => "form",
            OptionName::Rate => "rate",
            OptionName::Cap => "cap",
        }
    }

    /// The bytes of the option's name.
    pub(crate) fn name(self) -> &'static [u8]
        ensures { result.now ≡ name_of_option self }
    {
        self.word().as_bytes()
    }
}

/// The values that a command line gives; `None` for an option or an operand that is absent.
#[derive(Clone, Copy, Debug, PartialEq, Eq)]
pub(crate) struct Values {
    /// Budget in bytes that each frame adds to its group, at least 1.
    pub(crate) budget: Option<u32>,
    /// The least quantisation index of a slice, 1 to 224.
    pub(crate) lo: Option<u8>,
    /// The greatest quantisation index of a slice, 1 to 224.
    pub(crate) hi: Option<u8>,
    /// Binary logarithm of the slice width in macroblocks, 0 to 3.
    pub(crate) log2: Option<u8>,
    pub(crate) matrix: Option<Matrix>,
    /// The format of raw planar pictures, as progressive ones.
    pub(crate) raw: Option<Head>,
    pub(crate) interlace: Option<Interlace>,
    /// Number of frames that share a budget, 1 to 8.
    pub(crate) group: Option<u8>,
    /// The version of the proof format, 1 or 2.
    pub(crate) proof: Option<u8>,
    /// Bit depth of the decoded samples.
    pub(crate) depth: Option<Depth>,
    /// The output format of pictures.
    pub(crate) form: Option<Form>,
    /// The frame rate of a rescued movie.
    pub(crate) rate: Option<Rate>,
    /// The largest error that a choice may have.
    pub(crate) cap: Option<u64>,
    /// Width of the synthetic pictures, in samples.
    pub(crate) width: Option<u16>,
    /// Height of the synthetic pictures, in samples.
    pub(crate) height: Option<u16>,
    /// Number of synthetic pictures, 1 to 100.
    pub(crate) frames: Option<u8>,
    /// Initial state of their noise generator.
    pub(crate) seed: Option<u32>,
}

/// The matrix with this name.
fn matrix_named(bytes: &[u8]) -> Option<Matrix>
    ensures { result ≡ matrix_named bytes.now }
{
    match bytes {
        b"flat" => Some(Matrix::Flat),
        b"steep" => Some(Matrix::Steep),
        _ => None,
    }
}

/// The interlace mode with this letter.
fn interlace_named(bytes: &[u8]) -> Option<Interlace>
    ensures { result ≡ interlace_named bytes.now }
{
    match bytes {
        b"p" => Some(Interlace::Progressive),
        b"t" => Some(Interlace::TopFirst),
        b"b" => Some(Interlace::BottomFirst),
        _ => None,
    }
}

/// The output format with this name.
fn form_named(bytes: &[u8]) -> Option<Form>
    ensures { result ≡ form_named bytes.now }
{
    match bytes {
        b"y4m" => Some(Form::Y4m),
        b"raw" => Some(Form::Raw),
        _ => None,
    }
}

impl Values {
    pub(crate) fn none() -> Values
        ensures value { result ≡ no_values }
        ensures limits { AreValues result }
    {
        Values {
            budget: None,
            lo: None,
            hi: None,
            log2: None,
            matrix: None,
            raw: None,
            interlace: None,
            group: None,
            proof: None,
            depth: None,
            form: None,
            rate: None,
            cap: None,
            width: None,
            height: None,
            frames: None,
            seed: None,
        }
    }

    /// Whether `option` was given.
    pub(crate) fn has(&self, option: OptionName) -> bool
        ensures { result ≡ is_given option self.now }
    {
        match option {
            OptionName::Budget => self.budget.is_some(),
            OptionName::Lo => self.lo.is_some(),
            OptionName::Hi => self.hi.is_some(),
            OptionName::Log => self.log2.is_some(),
            OptionName::Matrix => self.matrix.is_some(),
            OptionName::Raw => self.raw.is_some(),
            OptionName::Interlace => self.interlace.is_some(),
            OptionName::Group => self.group.is_some(),
            OptionName::Proof => self.proof.is_some(),
            OptionName::Depth => self.depth.is_some(),
            OptionName::Form => self.form.is_some(),
            OptionName::Rate => self.rate.is_some(),
            OptionName::Cap => self.cap.is_some(),
        }
    }

    /// The values with that of `option`; `None` if `bytes` aren't a valid value.
    pub(crate) fn with(self, option: OptionName, bytes: &[u8]) -> Option<Values>
        requires { AreValues self }
        ensures value { result ≡ with_value option bytes.now self }
        ensures limits { IfSome result AreValues }
    {
        let mut values = self;
        match option {
            OptionName::Budget => {
                values.budget = Some(number_within(bytes, 1, u64::from(MAX_BUDGET))? as u32);
            }
            OptionName::Lo => values.lo = Some(number_within(bytes, 1, MAX_INDEX)? as u8),
            OptionName::Hi => values.hi = Some(number_within(bytes, 1, MAX_INDEX)? as u8),
            OptionName::Log => values.log2 = Some(number_within(bytes, 0, 3)? as u8),
            OptionName::Matrix => values.matrix = Some(matrix_named(bytes)?),
            OptionName::Raw => values.raw = Some(raw_form(bytes)?),
            OptionName::Interlace => values.interlace = Some(interlace_named(bytes)?),
            OptionName::Group => values.group = Some(number_within(bytes, 1, 8)? as u8),
            OptionName::Proof => values.proof = Some(number_within(bytes, 1, 2)? as u8),
            OptionName::Depth => values.depth = Some(depth_in(bytes)?),
            OptionName::Form => values.form = Some(form_named(bytes)?),
            OptionName::Rate => values.rate = Some(rate_in(bytes)?),
            OptionName::Cap => values.cap = Some(number_within(bytes, 0, u64::MAX)?),
        }
        Some(values)
    }

    /// The values with operand `operand` of `synth`: width, height, number of pictures, seed, and budget of each.
    /// `None` if `bytes` aren't a number in its range.
    pub(crate) fn with_number(self, operand: usize, bytes: &[u8]) -> Option<Values>
        requires { AreValues self }
        ensures value { result ≡ with_number operand bytes.now self }
        ensures limits { IfSome result AreValues }
    {
        let mut values = self;
        match operand {
            0 => values.width = Some(number_within(bytes, 1, u64::from(MAX_WIDTH))? as u16),
            1 => values.height = Some(number_within(bytes, 1, u64::from(MAX_HEIGHT))? as u16),
            2 => values.frames = Some(number_within(bytes, 1, MAX_FRAMES)? as u8),
            3 => values.seed = Some(number_within(bytes, 0, u64::from(u32::MAX))? as u32),
            _ => values.budget = Some(number_within(bytes, 1, u64::from(MAX_BUDGET))? as u32),
        }
        Some(values)
    }
}
