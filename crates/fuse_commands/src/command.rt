//! The words of the command line.

ghost use Rattle.std.specs.Prelude.{◌≡◌, option_map, string_bytes};
ghost use Rattle.fuse_commands.specs.View.{command_seen, texts};
ghost use Rattle.fuse_commands.specs.Words.{command_of, compare_words, grade_words, port_words, read_words, vectors_of, vectors_words, write_words};

use crate::form_words::{mends_of, wanted_of};
use form_commands::Wanted;
use jedec_reader::short_number;
use pld_base::DeviceName;

/// What is done with the files of a command.
#[derive(Clone, Copy)]
pub enum Task<'a> {
    /// `grade DEVICE IN`
    Grade(DeviceName),
    /// `vectors [-at-most N] DEVICE IN OUT`
    Vectors {
        device: DeviceName,
        most: u16,
        output: &'a str,
    },
    /// `port FROM IN TO OUT`
    Port {
        from: DeviceName,
        to: DeviceName,
        output: &'a str,
    },
    /// `compare FROM A TO B`
    Compare {
        from: DeviceName,
        to: DeviceName,
    },
    /// `read DEVICE IN OUT [mend]`
    Read {
        device: DeviceName,
        mends: bool,
        output: &'a str,
    },
    /// `write DEVICE IN OUT FORM [sign TEXT] [secured]`
    Write {
        device: DeviceName,
        wanted: Wanted<'a>,
        output: &'a str,
    },
}

/// What the words ask for: a task, and the names of the files that it reads, one or two.
#[derive(Clone, Copy)]
pub struct Command<'a> {
    pub task: Task<'a>,
    pub first: &'a str,
    pub second: Option<&'a str>,
}

/// The command `grade` of the words after it. Takes no memory.
fn grade_words(words: &[String]) -> Option<Command<'_>>
    ensures { option_map command_seen result ≡ grade_words (texts words.now) }
{
    let [device, input] = words else {
        return None;
    };
    let device = DeviceName::named(device.as_bytes())?;
    Some(Command {
        task: Task::Grade(device),
        first: input.as_str(),
        second: None,
    })
}

/// The command `vectors` with so many vectors at most.
fn vectors_of<'a>(
    most: u16,
    device: &'a String,
    input: &'a String,
    output: &'a String,
) -> Option<Command<'a>>
    ensures { option_map command_seen result ≡ vectors_of most (string_bytes device.now) (string_bytes input.now) (string_bytes output.now) }
{
    let device = DeviceName::named(device.as_bytes())?;
    Some(Command {
        task: Task::Vectors {
            device,
            most,
            output: output.as_str(),
        },
        first: input.as_str(),
        second: None,
    })
}

/// The command `vectors` of the words after it. Takes no memory.
fn vectors_words(words: &[String]) -> Option<Command<'_>>
    ensures { option_map command_seen result ≡ vectors_words (texts words.now) }
{
    match words {
        [device, input, output] => vectors_of(9_999, device, input, output),
        [option, number, device, input, output] if option.as_str() == "-at-most" => {
            vectors_of(short_number(number.as_bytes())?, device, input, output)
        }
        _ => None,
    }
}
/// The command `port` of the words after it. Takes no memory.
fn port_words(words: &[String]) -> Option<Command<'_>>
    ensures { option_map command_seen result ≡ port_words (texts words.now) }
{
    let [from, input, to, output] = words else {
        return None;
    };
    let from = DeviceName::named(from.as_bytes())?;
    let to = DeviceName::named(to.as_bytes())?;
    Some(Command {
        task: Task::Port {
            from,
            to,
            output: output.as_str(),
        },
        first: input.as_str(),
        second: None,
    })
}

/// The command `compare` of the words after it. Takes no memory.
fn compare_words(words: &[String]) -> Option<Command<'_>>
    ensures { option_map command_seen result ≡ compare_words (texts words.now) }
{
    let [from, first, to, second] = words else {
        return None;
    };
    let from = DeviceName::named(from.as_bytes())?;
    let to = DeviceName::named(to.as_bytes())?;
    Some(Command {
        task: Task::Compare { from, to },
        first: first.as_str(),
        second: Some(second.as_str()),
    })
}

/// The command `read` of the words after it. Takes no memory.
fn read_words(words: &[String]) -> Option<Command<'_>>
    ensures { option_map command_seen result ≡ read_words (texts words.now) }
{
    let [device, input, output, options @ ..] = words else {
        return None;
    };
    let device = DeviceName::named(device.as_bytes())?;
    let mends = mends_of(options)?;
    Some(Command {
        task: Task::Read {
            device,
            mends,
            output: output.as_str(),
        },
        first: input.as_str(),
        second: None,
    })
}

/// The command `write` of the words after it. Takes no memory.
fn write_words(words: &[String]) -> Option<Command<'_>>
    ensures { option_map command_seen result ≡ write_words (texts words.now) }
{
    let [device, input, output, form, options @ ..] = words else {
        return None;
    };
    let device = DeviceName::named(device.as_bytes())?;
    let wanted = wanted_of(form.as_str(), options)?;
    Some(Command {
        task: Task::Write {
            device,
            wanted,
            output: output.as_str(),
        },
        first: input.as_str(),
        second: None,
    })
}

/// The command that the words are. Takes no memory.
pub fn command_of(words: &[String]) -> Option<Command<'_>>
    ensures { option_map command_seen result ≡ command_of (texts words.now) }
{
    let [name, rest @ ..] = words else {
        return None;
    };
    if name.as_str() == "grade" {
        grade_words(rest)
    } else if name.as_str() == "vectors" {
        vectors_words(rest)
    } else if name.as_str() == "port" {
        port_words(rest)
    } else if name.as_str() == "compare" {
        compare_words(rest)
    } else if name.as_str() == "read" {
        read_words(rest)
    } else if name.as_str() == "write" {
        write_words(rest)
    } else {
        None
    }
}
