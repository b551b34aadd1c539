//! The words of the command line.

ghost use Rattle.std.specs.Prelude.{◌≡◌, IfSome, length, option_map};
ghost use Rattle.abel_commands.specs.View.{command_seen, task_seen};
ghost use Rattle.abel_commands.specs.Words.{command_of, device_task, seed_of, source_count, word_device};
ghost use Rattle.abel_commands.specs.Sources.{texts};

use crate::digits::are_few_digits;
use pld_base::DeviceName;

/// What is done with the sources of a command.
#[derive(Clone, Copy)]
pub enum Task<'a> {
    /// `compile IN OUT`
    Compile { output: &'a str },
    /// `list IN`
    List,
    /// `simulate DEVICE IN`
    Simulate { device: DeviceName },
    /// `check DEVICE IN`
    Check { device: DeviceName },
    /// `demo N`
    Demo { seed: u16 },
    /// `decompile DEVICE IN`
    Decompile { device: DeviceName },
    /// `compare DEVICE A B`
    Compare { device: DeviceName },
}

/// What the words ask for: a task, and the words that name its sources, in order.
#[derive(Clone, Copy)]
pub struct Command<'a> {
    pub task: Task<'a>,
    pub inputs: &'a [String],
}

/// The number that a word of one to five digits is, if it is at most 65,535. Takes no memory.
fn seed_of(word: &str) -> Option<u16>
    ensures { result ≡ seed_of word.now }
{
    if !are_few_digits(word.as_bytes()) {
        return None;
    }
    word.parse::<u16>().ok()
}

/// The device that a word names, without regard to case. Takes no memory.
fn word_device(word: &str) -> Option<DeviceName>
    ensures { result ≡ word_device word.now }
{
    DeviceName::named(word.as_bytes())
}

/// The command that two words are. Takes no memory.
fn command_of_two<'a>(words: &'a [String]) -> Option<Command<'a>>
    requires { length words.now ≡ 2 }
    ensures command { option_map command_seen result ≡ command_of (texts words.now) }
    ensures inputs { IfSome result (λ c. length c.inputs.now ≡ source_count (task_seen c.task)) }
{
    if words[0].as_str() == "list" {
        Some(Command {
            task: Task::List,
            inputs: &words[1..],
        })
    } else if words[0].as_str() == "demo" {
        let seed = seed_of(words[1].as_str())?;
        Some(Command {
            task: Task::Demo { seed },
            inputs: &words[2..],
        })
    } else {
        None
    }
}

/// The task on a device that a word names, with one source. Takes no memory.
fn device_task<'a>(word: &str, device: DeviceName) -> Option<Task<'a>>
    ensures task { option_map task_seen result ≡ device_task word.now device }
    ensures source { IfSome result (λ task. source_count (task_seen task) ≡ 1) }
{
    if word == "simulate" {
        Some(Task::Simulate { device })
    } else if word == "check" {
        Some(Task::Check { device })
    } else if word == "decompile" {
        Some(Task::Decompile { device })
    } else {
        None
    }
}

/// The command that four words are. Takes no memory.
fn command_of_four<'a>(words: &'a [String]) -> Option<Command<'a>>
    requires { length words.now ≡ 4 }
    ensures command { option_map command_seen result ≡ command_of (texts words.now) }
    ensures inputs { IfSome result (λ c. length c.inputs.now ≡ source_count (task_seen c.task)) }
{
    if words[0].as_str() == "compare" {
        let device = word_device(words[1].as_str())?;
        Some(Command {
            task: Task::Compare { device },
            inputs: &words[2..],
        })
    } else {
        None
    }
}

/// The command that the words are. Takes no memory.
pub fn command_of(words: &[String]) -> Option<Command<'_>>
    ensures command { option_map command_seen result ≡ command_of (texts words.now) }
    ensures inputs { IfSome result (λ c. length c.inputs.now ≡ source_count (task_seen c.task)) }
{
    if words.len() == 2 {
        return command_of_two(words);
    }
    if words.len() == 4 {
        return command_of_four(words);
    }
    let [first, second, third] = words else {
        return None;
    };
    if first.as_str() == "compile" {
        return Some(Command {
            task: Task::Compile {
                output: third.as_str(),
            },
            inputs: &words[1..2],
        });
    }
    let device = word_device(second.as_str())?;
    let task = device_task(first.as_str(), device)?;
    Some(Command {
        task,
        inputs: &words[2..],
    })
}
