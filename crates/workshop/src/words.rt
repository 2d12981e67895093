//! The words of the command line, and their grammar.

ghost use Rattle.std.specs.Prelude.{◌≡◌, ◌<◌, ◌≤◌, [], IfOk, IfSome, drop, length, map, string_bytes};
ghost use Rattle.workshop.specs.Options.{AreValues, no_values};
ghost use Rattle.workshop.specs.Words.{IsWalk, IsTask, commands, name_of, command_named, option_named, options_of, operands_of, most_operands, takes, lacks, lacks_option, clash, encode_words, decode_words, raw_in, has_odd_form, task_of, with_option_value, with_option, operand_values, with_operand, synth_words, ended, walk, said, settled, command_of, ports_of, names_in, no_names, is_decode, tells_monitors};

use crate::options::{MAX_BUDGET, OptionName, Rate, Values};
use crate::raw_form::cut;
use crate::status::UsageKind;
use arrayvec::ArrayVec;
use pic_y4m::Head;
use pr_quant::Matrix;
use pw_planes::{Depth, Interlace};
use run_decode::Form;
use run_encode::EncodeWords;
use run_synth::SynthWords;

/// The largest number of operands of a command.
const MOST_OPERANDS: usize = 5;

/// A command of the program.
#[derive(Clone, Copy, Debug, PartialEq, Eq)]
pub enum Command {
    /// `plan TABLE` prints the best choice of a table file.
    Plan,
    /// `encode PICTURES MOVIE PROOF` encodes pictures, each group by the best choice within its budget.
    Encode,
    /// `list MOVIE` prints the track of a movie and its samples.
    List,
    /// `check PROOF` checks the records of a proof; `check PROOF PICTURES MOVIE` checks them with the pictures and
    /// the movie.
    Check,
    /// `reproof PROOF OUTPUT` rewrites a proof in format 2.
    Reproof,
    /// `decode MOVIE OUT` decodes the pictures of a movie.
    Decode,
    /// `rescue FILE OUT` makes a movie of the frames in a file.
    Rescue,
    /// `addsound MOVIE WAV OUT` adds the sound of a WAV to the pictures of a movie.
    AddSound,
    /// `sound MOVIE OUT` extracts the sound of a movie.
    Sound,
    /// `least TABLE CERT` prints the smallest choice of a table file under a cap on the error, and certifies it.
    Least,
    /// `checkleast CERT` checks a certificate of `least`.
    CheckLeast,
    /// `curve TABLE` prints all undominated pairs of size and error of a table file.
    Curve,
    /// `synth W H FRAMES SEED BUDGET` generates pictures, encodes, decodes and checks them.
    Synth,
}

/// The options of a run of `decode`.
#[derive(Clone, Copy, Debug, PartialEq, Eq)]
pub struct DecodeWords {
    /// Bit depth of the decoded samples.
    pub depth: Depth,
    /// The output format of pictures.
    pub form: Form,
}

/// For each port the number of the word that names its file.
#[derive(Clone, Copy, Debug, PartialEq, Eq)]
pub struct Names {
    pub pictures: Option<usize>,
    pub proof: Option<usize>,
    pub movie: Option<usize>,
    pub out: Option<usize>,
    pub cert: Option<usize>,
}

/// An error of the words, and the number of the first word that has it.
#[derive(Clone, Copy, Debug, PartialEq, Eq)]
pub struct BadWords {
    pub kind: UsageKind,
    pub word: usize,
}

/// What to run, with its parameters.
#[derive(Clone, Copy, Debug, PartialEq, Eq)]
pub enum Task {
    Plan,
    Encode(EncodeWords),
    List,
    Check,
    /// With the pictures and the movie.
    CheckAll,
    Reproof,
    Decode(DecodeWords),
    /// At this frame rate.
    Rescue(Rate),
    AddSound,
    Sound,
    /// Under this cap on the error.
    Least(u64),
    CheckLeast,
    Curve,
    /// With these pictures and this budget.
    Synth(SynthWords),
}

/// What to run, with the word numbers of the operands.
#[derive(Drop)]
pub(crate) struct Settings {
    pub(crate) task: Task,
    operands: ArrayVec<usize, MOST_OPERANDS>,
}

// The grammar, a row for each command.
impl Command {
    /// The command with this name.
    pub(crate) fn named(word: &str) -> Option<Command>
        ensures { result ≡ command_named word.now }
    {
        match word {
            "plan" => Some(Command::Plan),
            "encode" => Some(Command::Encode),
            "list" => Some(Command::List),
            "check" => Some(Command::Check),
            "reproof" => Some(Command::Reproof),
            "decode" => Some(Command::Decode),
            "rescue" => Some(Command::Rescue),
            "addsound" => Some(Command::AddSound),
            "sound" => Some(Command::Sound),
            "least" => Some(Command::Least),
            "checkleast" => Some(Command::CheckLeast),
            "curve" => Some(Command::Curve),
            "synth" => Some(Command::Synth),
            _ => None,
        }
    }

    /// All commands, in the order in which they are printed.
    pub(crate) fn all() -> &'static [Command]
        ensures { result.now ≡ commands }
    {
        &[
            Command::Plan,
            Command::Encode,
            Command::List,
            Command::Check,
            Command::Reproof,
            Command::Decode,
            Command::Rescue,
            Command::AddSound,
            Command::Sound,
            Command::Least,
            Command::CheckLeast,
            Command::Curve,
            Command::Synth,
        ]
    }

    /// The command's name.
    pub(crate) fn name(self) -> &'static str
        ensures { result.now ≡ name_of self }
    {
        match self {
            Command::Plan => "plan",
            Command::Encode => "encode",
            Command::List => "list",
            Command::Check => "check",
            Command::Reproof => "reproof",
            Command::Decode => "decode",
            Command::Rescue => "rescue",
            Command::AddSound => "addsound",
            Command::Sound => "sound",
            Command::Least => "least",
            Command::CheckLeast => "checkleast",
            Command::Curve => "curve",
            Command::Synth => "synth",
        }
    }

    /// The names of the command's operands, with the optional ones.
    pub(crate) fn operands(self) -> &'static [&'static str]
        ensures { length result.now ≡ most_operands self }
    {
        match self {
            Command::Plan | Command::Curve => &["TABLE"],
            Command::Encode => &["PICTURES", "MOVIE", "PROOF"],
            Command::List => &["MOVIE"],
            Command::Check => &["PROOF", "PICTURES", "MOVIE"],
            Command::Reproof => &["PROOF", "OUTPUT"],
            Command::Decode | Command::Sound => &["MOVIE", "OUT"],
            Command::Rescue => &["FILE", "OUT"],
            Command::AddSound => &["MOVIE", "WAV", "OUT"],
            Command::Least => &["TABLE", "CERT"],
            Command::CheckLeast => &["CERT"],
            Command::Synth => &["W", "H", "FRAMES", "SEED", "BUDGET"],
        }
    }

    /// The numbers of operands that the command allows, rising.
    pub(crate) fn operand_counts(self) -> &'static [usize]
        ensures { result.now ≡ operands_of self }
    {
        match self {
            Command::Plan | Command::List | Command::CheckLeast | Command::Curve => &[1],
            Command::Check => &[1, 3],
            Command::Reproof
            | Command::Decode
            | Command::Rescue
            | Command::Sound
            | Command::Least => &[2],
            Command::Encode | Command::AddSound => &[3],
            Command::Synth => &[5],
        }
    }

    /// The largest number of operands that the command allows.
    fn most_operands(self) -> usize
        ensures value { result ≡ most_operands self }
        ensures few { result ≤ 5 }
    {
        self.operands().len()
    }

    /// Whether the command allows `operands` operands.
    fn takes(self, operands: usize) -> bool
        ensures { result ≡ takes self operands }
    {
        match self {
            Command::Plan | Command::List | Command::CheckLeast | Command::Curve => operands == 1,
            Command::Check => operands == 1 || operands == 3,
            Command::Reproof
            | Command::Decode
            | Command::Rescue
            | Command::Sound
            | Command::Least => operands == 2,
            Command::Encode | Command::AddSound => operands == 3,
            Command::Synth => operands == 5,
        }
    }

    /// The command's options.
    pub(crate) fn options(self) -> &'static [OptionName]
        ensures { result.now ≡ options_of self }
    {
        match self {
            Command::Plan
            | Command::List
            | Command::Check
            | Command::Reproof
            | Command::AddSound
            | Command::Sound
            | Command::CheckLeast
            | Command::Curve
            | Command::Synth => &[],
            Command::Encode => &[
                OptionName::Budget,
                OptionName::Lo,
                OptionName::Hi,
                OptionName::Log,
                OptionName::Matrix,
                OptionName::Raw,
                OptionName::Interlace,
                OptionName::Group,
                OptionName::Proof,
            ],
            Command::Decode => &[OptionName::Depth, OptionName::Form],
            Command::Rescue => &[OptionName::Rate],
            Command::Least => &[OptionName::Cap],
        }
    }

    /// The option that the command requires.
    pub(crate) fn needed(self) -> Option<OptionName>
        ensures { (v : Values) → lacks_option self v ≡ lacks result v }
    {
        match self {
            Command::Plan
            | Command::List
            | Command::Check
            | Command::Reproof
            | Command::Decode
            | Command::Rescue
            | Command::AddSound
            | Command::Sound
            | Command::CheckLeast
            | Command::Curve
            | Command::Synth => None,
            Command::Encode => Some(OptionName::Budget),
            Command::Least => Some(OptionName::Cap),
        }
    }

    /// The command's option with this name.
    fn option_named(self, name: &[u8]) -> Option<OptionName>
        ensures { result ≡ option_named self name.now }
    {
        let options = self.options();
        for option in options {
            if name == option.name() {
                return Some(*option);
            }
        }
        None
    }

    /// Whether a required option is missing.
    fn lacks_option(self, values: &Values) -> bool
        ensures { result ≡ lacks_option self values.now }
    {
        match self {
            Command::Plan
            | Command::List
            | Command::Check
            | Command::Reproof
            | Command::Decode
            | Command::Rescue
            | Command::AddSound
            | Command::Sound
            | Command::CheckLeast
            | Command::Curve
            | Command::Synth => false,
            Command::Encode => values.budget.is_none(),
            Command::Least => values.cap.is_none(),
        }
    }

    /// Whether the values contradict each other.
    fn clash(self, values: &Values) -> bool
        requires { AreValues values.now }
        ensures { result ≡ clash self values.now }
    {
        match self {
            Command::Plan
            | Command::List
            | Command::Check
            | Command::Reproof
            | Command::Decode
            | Command::Rescue
            | Command::AddSound
            | Command::Sound
            | Command::Least
            | Command::CheckLeast
            | Command::Curve
            | Command::Synth => false,
            Command::Encode => {
                let words = encode_words(values);
                words.hi < words.lo
                    || (values.interlace.is_some() && values.raw.is_none())
                    || has_odd_form(words.raw)
                    || u64::from(words.group) * u64::from(words.budget) > u64::from(MAX_BUDGET)
            }
        }
    }

    /// What the command runs with `operands` operands.
    fn task(self, operands: usize, values: &Values) -> Task
        ensures { result ≡ task_of self operands values.now }
    {
        match self {
            Command::Plan => Task::Plan,
            Command::Encode => Task::Encode(encode_words(values)),
            Command::List => Task::List,
            Command::Check if operands == 3 => Task::CheckAll,
            Command::Check => Task::Check,
            Command::Reproof => Task::Reproof,
            Command::Decode => Task::Decode(decode_words(values)),
            Command::Rescue => Task::Rescue(values.rate.unwrap_or(Rate { num: 25, den: 1 })),
            Command::AddSound => Task::AddSound,
            Command::Sound => Task::Sound,
            Command::Least => Task::Least(values.cap.unwrap_or(0)),
            Command::CheckLeast => Task::CheckLeast,
            Command::Curve => Task::Curve,
            Command::Synth => Task::Synth(synth_words(values)),
        }
    }

    /// The words that name the command's files, if `operands` are the numbers of its operands.
    fn names(self, operands: &[usize]) -> Names
        ensures { result ≡ ports_of self operands.now }
    {
        match self {
            Command::Plan | Command::CheckLeast | Command::Curve => Names {
                proof: operands.first().copied(),
                ..Names::none()
            },
            Command::Encode => Names {
                pictures: operands.first().copied(),
                out: operands.get(1).copied(),
                cert: operands.get(2).copied(),
                ..Names::none()
            },
            Command::List => Names {
                movie: operands.first().copied(),
                ..Names::none()
            },
            Command::Check => Names {
                proof: operands.first().copied(),
                pictures: operands.get(1).copied(),
                movie: operands.get(2).copied(),
                ..Names::none()
            },
            Command::Reproof | Command::Least => Names {
                proof: operands.first().copied(),
                cert: operands.get(1).copied(),
                ..Names::none()
            },
            Command::AddSound => Names {
                movie: operands.first().copied(),
                pictures: operands.get(1).copied(),
                out: operands.get(2).copied(),
                ..Names::none()
            },
            Command::Decode | Command::Rescue | Command::Sound => Names {
                movie: operands.first().copied(),
                out: operands.get(1).copied(),
                ..Names::none()
            },
            Command::Synth => Names::none(),
        }
    }

    /// The values with operand number `operand`: a number for `synth`, if `word` is one in its range; for every
    /// other command a file, which is no value.
    fn operand_values(self, operand: usize, word: &[u8], values: Values) -> Option<Values>
        requires { AreValues values }
        ensures value { result ≡ operand_values self operand word.now values }
        ensures limits { IfSome result AreValues }
    {
        match self {
            Command::Synth => values.with_number(operand, word),
            Command::Plan
            | Command::Encode
            | Command::List
            | Command::Check
            | Command::Reproof
            | Command::Decode
            | Command::Rescue
            | Command::AddSound
            | Command::Sound
            | Command::Least
            | Command::CheckLeast
            | Command::Curve => Some(values),
        }
    }
}

impl Task {
    /// The command that runs this.
    fn command(self) -> Command
        ensures { result ≡ command_of self }
    {
        match self {
            Task::Plan => Command::Plan,
            Task::Encode(_) => Command::Encode,
            Task::List => Command::List,
            Task::Check | Task::CheckAll => Command::Check,
            Task::Reproof => Command::Reproof,
            Task::Decode(_) => Command::Decode,
            Task::Rescue(_) => Command::Rescue,
            Task::AddSound => Command::AddSound,
            Task::Sound => Command::Sound,
            Task::Least(_) => Command::Least,
            Task::CheckLeast => Command::CheckLeast,
            Task::Curve => Command::Curve,
            Task::Synth(_) => Command::Synth,
        }
    }

    /// Whether pictures are reported to monitors.
    fn tells_monitors(self) -> bool
        ensures { result ≡ is_decode self }
    {
        match self {
            Task::Decode(_) => true,
            Task::Plan
            | Task::Encode(_)
            | Task::List
            | Task::Check
            | Task::CheckAll
            | Task::Reproof
            | Task::Rescue(_)
            | Task::AddSound
            | Task::Sound
            | Task::Least(_)
            | Task::CheckLeast
            | Task::Curve
            | Task::Synth(_) => false,
        }
    }
}

impl Names {
    fn none() -> Names
        ensures { result ≡ no_names }
    {
        Names {
            pictures: None,
            proof: None,
            movie: None,
            out: None,
            cert: None,
        }
    }
}

/// The format of raw planar pictures, with their interlace mode.
fn raw_in(values: &Values) -> Option<Head>
    ensures { result ≡ raw_in values.now }
{
    match values.raw {
        Some(form) => Some(Head {
            interlace: values.interlace.unwrap_or(Interlace::Progressive),
            ..form
        }),
        None => None,
    }
}

/// The options of `encode`, with defaults.
fn encode_words(values: &Values) -> EncodeWords
    ensures { result ≡ encode_words values.now }
{
    EncodeWords {
        budget: values.budget.unwrap_or(0),
        lo: values.lo.unwrap_or(1),
        hi: values.hi.unwrap_or(31),
        log2: values.log2.unwrap_or(3),
        matrix: values.matrix.unwrap_or(Matrix::Flat),
        raw: raw_in(values),
        group: values.group.unwrap_or(1),
        proof: values.proof.unwrap_or(2),
    }
}

/// The options of `decode`, with defaults.
fn decode_words(values: &Values) -> DecodeWords
    ensures { result ≡ decode_words values.now }
{
    DecodeWords {
        depth: values.depth.unwrap_or(Depth::D10),
        form: values.form.unwrap_or(Form::Y4m),
    }
}

/// The numeric operands of `synth`.
fn synth_words(values: &Values) -> SynthWords
    ensures { result ≡ synth_words values.now }
{
    SynthWords {
        width: values.width.unwrap_or(1),
        height: values.height.unwrap_or(1),
        frames: values.frames.unwrap_or(1),
        seed: values.seed.unwrap_or(0),
        budget: values.budget.unwrap_or(1),
    }
}

/// Whether frames are interlaced and have an odd number of rows.
fn has_odd_form(form: Option<Head>) -> bool
    ensures { result ≡ has_odd_form form }
{
    match form {
        Some(form) => form.interlace != Interlace::Progressive && form.height % 2 == 1,
        None => false,
    }
}

/// The values with that of `option`, given by word `at`; an option may be given once.
#[tactic(auto, unfolding(crate::specs::Words::with_option_value))]
fn with_option_value(
    option: OptionName,
    value: &[u8],
    at: usize,
    values: Values,
) -> Result<Values, BadWords>
    requires { AreValues values }
    ensures value { IsWalk (λ v. v) result (with_option_value option value.now at values) }
    ensures limits { IfOk result AreValues }
{
    if values.has(option) {
        return Err(BadWords {
            kind: UsageKind::RepeatedOption,
            word: at,
        });
    }
    match values.with(option, value) {
        Some(values) => Ok(values),
        None => Err(BadWords {
            kind: UsageKind::BadValue,
            word: at,
        }),
    }
}

/// The values with that of the option `--NAME=VALUE`, word `at`.
#[tactic(auto, unfolding(crate::specs::Words::with_option))]
fn with_option(command: Command, word: &[u8], at: usize, values: Values) -> Result<Values, BadWords>
    requires word { 2 ≤ length word.now }
    requires values { AreValues values }
    ensures value { IsWalk (λ v. v) result (with_option command word.now at values) }
    ensures limits { IfOk result AreValues }
{
    let unknown = BadWords {
        kind: UsageKind::UnknownOption,
        word: at,
    };
    let Some((name, value)) = cut(&word[2..], b'=') else {
        return Err(unknown);
    };
    let Some(option) = command.option_named(name) else {
        return Err(unknown);
    };
    with_option_value(option, value, at, values)
}

/// The values with operand number `operand`, word `at`.
#[tactic(auto, unfolding(crate::specs::Words::with_operand))]
fn with_operand(
    command: Command,
    operand: usize,
    word: &[u8],
    at: usize,
    values: Values,
) -> Result<Values, BadWords>
    requires { AreValues values }
    ensures value { IsWalk (λ v. v) result (with_operand command operand word.now at values) }
    ensures limits { IfOk result AreValues }
{
    match command.operand_values(operand, word, values) {
        Some(values) => Ok(values),
        None => Err(BadWords {
            kind: UsageKind::BadValue,
            word: at,
        }),
    }
}

/// The result for all words: `at` words were read, and none is left.
#[tactic(auto, unfolding(crate::specs::Words::ended), using(crate::proofs::Tasks::task_allowed))]
fn ended(
    command: Command,
    at: usize,
    operands: ArrayVec<usize, MOST_OPERANDS>,
    values: &Values,
) -> Result<Settings, BadWords>
    requires { AreValues values.now }
    ensures value { IsWalk settled result (ended command at operands.items values.now) }
    ensures limits { IfOk result (λ s. IsTask s.task) }
{
    let kind = if !command.takes(operands.len()) {
        UsageKind::MissingOperand
    } else if command.lacks_option(values) {
        UsageKind::MissingOption
    } else if command.clash(values) {
        UsageKind::Conflict
    } else {
        return Ok(Settings {
            task: command.task(operands.len(), values),
            operands,
        });
    };
    Err(BadWords { kind, word: at })
}

/// The result for the words after the command, or their first error.
fn walk(command: Command, words: &[String]) -> Result<Settings, BadWords>
    requires { 0 < length words.now }
    ensures value { IsWalk settled result (walk command (map string_bytes (drop 1 words.now)) 1 [] no_values) }
    ensures limits { IfOk result (λ s. IsTask s.task) }
{
    let mut operands = ArrayVec::new();
    let mut values = Values::none();
    for at in 1..words.len() {
        let word = words[at].as_bytes();
        if word.starts_with(b"--") {
            values = with_option(command, word, at, values)?;
        } else if operands.len() < command.most_operands() {
            values = with_operand(command, operands.len(), word, at, values)?;
            operands.push(at);
        } else {
            return Err(BadWords {
                kind: UsageKind::ExtraOperand,
                word: at,
            });
        }
    }
    ended(command, words.len(), operands, &values)
}

/// What to run, or the first error of the words.
pub(crate) fn settings_of(words: &[String]) -> Result<Settings, BadWords>
    ensures value { IsWalk settled result (said words.now) }
    ensures limits { IfOk result (λ s. IsTask s.task) }
{
    let Some(first) = words.first() else {
        return Err(BadWords {
            kind: UsageKind::NoCommand,
            word: 0,
        });
    };
    let Some(command) = Command::named(first.as_str()) else {
        return Err(BadWords {
            kind: UsageKind::UnknownCommand,
            word: 0,
        });
    };
    walk(command, words)
}

/// For each port the number of the word that names its file; none if the words aren't in the grammar. It allocates
/// no memory.
pub fn names_of(words: &[String]) -> Names
    ensures { result ≡ names_in (said words.now) }
{
    match settings_of(words) {
        Ok(settings) => settings.task.command().names(&settings.operands),
        Err(_) => Names::none(),
    }
}

/// Whether the command reports pictures to monitors; only `decode` does. It allocates no memory.
pub fn tells_monitors(words: &[String]) -> bool
    ensures { result ≡ tells_monitors (said words.now) }
{
    match settings_of(words) {
        Ok(settings) => settings.task.tells_monitors(),
        Err(_) => false,
    }
}
