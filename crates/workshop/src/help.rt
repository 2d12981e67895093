//! The help texts: all commands, and the usage of one. Commands, operands and options are those of the grammar, so
//! that the two can't disagree.

use crate::options::OptionName;
use crate::status::{Status, UsageKind};
use crate::words::Command;
use std::alloc::AllocError;

/// The version that `workshop --version` prints.
const VERSION: &str = "1.0";

/// A question about the program itself.
#[derive(Clone, Copy, Debug, PartialEq, Eq)]
pub(crate) enum Question {
    /// `--help`, `help`: all commands.
    All,
    /// `help COMMAND`: the usage of one.
    One(Command),
    /// `--version`.
    Version,
}

/// The question that the words ask, if any. None of these lines is in the grammar.
pub(crate) fn question_of(words: &[String]) -> Option<Question> {
    let first = words.first()?.as_str();
    match (words.get(1), words.len()) {
        (None, _) if first == "--help" || first == "help" => Some(Question::All),
        (None, _) if first == "--version" => Some(Question::Version),
        (Some(name), 2) if first == "help" => match Command::named(name.as_str()) {
            Some(command) => Some(Question::One(command)),
            None => Some(Question::All),
        },
        _ => None,
    }
}

/// The syntax of an option's values.
fn form(option: OptionName) -> &'static str {
    match option {
        OptionName::Budget | OptionName::Lo | OptionName::Hi | OptionName::Log => "N",
        OptionName::Cap => "E",
        OptionName::Matrix => "flat|steep",
        OptionName::Raw => "WxH:CHROMA:DEPTH:ALPHA:NUM/DEN",
        OptionName::Interlace => "p|t|b",
        OptionName::Group => "G",
        OptionName::Proof => "1|2",
        OptionName::Depth => "8|10|12",
        OptionName::Form => "y4m|raw",
        OptionName::Rate => "NUM/DEN",
    }
}

/// What an option is for, its range, and its default.
fn meaning(option: OptionName) -> &'static str {
    match option {
        OptionName::Budget => "bytes that a frame may have, all headers included; 1 to 2147483647",
        OptionName::Lo => "the least quantisation index, 1 to 224 (finest; 1 if absent)",
        OptionName::Hi => "the greatest quantisation index, 1 to 224 (31 if absent)",
        OptionName::Log => "slices are 2^N macroblocks wide, 0 to 3 (3 if absent)",
        OptionName::Matrix => "the weights (flat if absent)",
        OptionName::Raw => "raw planes in place of Y4M, as 1920x1080:422:10:0:25/1",
        OptionName::Interlace =>
            "raw planes are progressive, top or bottom field first (p if absent)",
        OptionName::Group => "so many frames share their budgets, 1 to 8 (1 if absent)",
        OptionName::Proof => "the version of the proof file (2 if absent)",
        OptionName::Depth => "bits of a sample that is written (10 if absent)",
        OptionName::Form => "how pictures are written (y4m if absent)",
        OptionName::Rate => "frames in seconds, up to 1000000/4000 (25/1 if absent)",
        OptionName::Cap =>
            "the most squared error that a choice may have; 0 to 18446744073709551615",
    }
}

/// What a command does, in a line.
fn purpose(command: Command) -> &'static str {
    match command {
        Command::Plan => "prints the best choice for a table of costs",
        Command::Encode =>
            "makes a movie of pictures (- is standard input), and the proof of its choices",
        Command::List => "prints the track of ProRes of a movie, and its samples",
        Command::Check =>
            "checks a proof, by itself or with the pictures (- is standard input) and the movie that it is of",
        Command::Reproof => "writes a proof again in version 2",
        Command::Decode => "writes the pictures of a movie",
        Command::Rescue => "makes a movie of the frames that stand in a file whose tables are lost",
        Command::AddSound =>
            "puts the plain PCM sound of a WAV (- is standard input) beside the pictures of a movie",
        Command::Sound => "takes the first track of plain PCM sound out of a movie, as a WAV",
        Command::Least =>
            "prints the smallest choice for a table of costs under a cap on the error, and writes its certificate",
        Command::CheckLeast => "checks a certificate of least",
        Command::Curve =>
            "prints all pairs of size and error of a table of costs that no other is better than",
        Command::Synth =>
            "makes FRAMES pictures of W by H samples up, and encodes, decodes and checks them in memory",
    }
}

/// The line of a command: its name, its operands, and its options, the optional ones in brackets.
fn put_line(text: &mut String, command: Command) -> Result<(), AllocError> {
    write!(text, "workshop {}", command.name())?;
    let least = command.operand_counts().first().copied().unwrap_or(0);
    let operands = command.operands();
    for (number, operand) in operands.iter().enumerate() {
        let open = if number == least { "[" } else { "" };
        let close = if number >= least && number + 1 == operands.len() {
            "]"
        } else {
            ""
        };
        write!(text, " {open}{operand}{close}")?;
    }
    for option in command.options() {
        if command.needed() == Some(*option) {
            write!(text, " --{}={}", option.word(), form(*option))?;
        } else {
            write!(text, " [--{}={}]", option.word(), form(*option))?;
        }
    }
    writeln!(text)
}

/// The usage of a command.
fn put_usage(text: &mut String, command: Command) -> Result<(), AllocError> {
    write!(text, "usage: ")?;
    put_line(text, command)?;
    writeln!(text, "  {}", purpose(command))?;
    for option in command.options() {
        writeln!(text, "  --{}: {}", option.word(), meaning(*option))?;
    }
    Ok(())
}

/// All commands, a line each.
fn put_commands(text: &mut String) -> Result<(), AllocError> {
    writeln!(
        text,
        "workshop makes, shows, lists and checks QuickTime movies of ProRes frames."
    )?;
    for command in Command::all() {
        write!(text, "  ")?;
        put_line(text, *command)?;
        writeln!(text, "      {}", purpose(*command))?;
    }
    writeln!(
        text,
        "workshop help COMMAND tells the options of a command."
    )
}

/// The answer to a question.
pub(crate) fn put_answer(text: &mut String, question: Question) -> Result<(), AllocError> {
    match question {
        Question::All => put_commands(text),
        Question::One(command) => put_usage(text, command),
        Question::Version => writeln!(text, "workshop {VERSION}"),
    }
}

/// Whether one of the words is `--help`.
pub(crate) fn says_help(words: &[String]) -> bool {
    for word in words {
        if word.as_str() == "--help" {
            return true;
        }
    }
    false
}

/// Help for words outside the grammar: the usage of their command, or all commands.
pub(crate) fn put_help(text: &mut String, words: &[String]) -> Result<(), AllocError> {
    match words.first().and_then(|word| Command::named(word.as_str())) {
        Some(command) => put_usage(text, command),
        None => put_commands(text),
    }
}
