//! How words end that are no command on files.

ghost use Rattle.std.specs.Prelude.{◌≡◌, IfOk};
ghost use Rattle.fuse_commands.specs.Prelude.{ending_seen, ends};
ghost use Rattle.fuse_commands.specs.Usage.{other_ending, usage, version, word_ending};
ghost use Rattle.fuse_commands.specs.View.{texts};

use fuse_reports::Ending;
use pld_base::OutOfMemory;
use std::alloc::Global;

/// The words that the program takes.
const USAGE: &str = "usage: abel-fuses grade DEVICE IN
       abel-fuses vectors [-at-most N] DEVICE IN OUT
       abel-fuses port FROM IN TO OUT
       abel-fuses compare FROM A TO B
       abel-fuses read DEVICE IN OUT [mend]
       abel-fuses write DEVICE IN OUT FORM [sign TEXT] [secured]
       abel-fuses --help
       abel-fuses --version
";

/// What `--version` prints.
const VERSION: &str = "abel-fuses 0.1.0
";

/// The usage text.
#[tactic(auto, unfolding(crate::specs::Usage::usage))]
fn usage_text(alloc: Global) -> Result<Vec<u8>, OutOfMemory>
    ensures { IfOk result (λ v. v.items ≡ usage) }
{
    Ok(Vec::from_slice(alloc, USAGE.as_bytes())?)
}

/// The version's line.
#[tactic(auto, unfolding(crate::specs::Usage::version))]
fn version_text(alloc: Global) -> Result<Vec<u8>, OutOfMemory>
    ensures { IfOk result (λ v. v.items ≡ version) }
{
    Ok(Vec::from_slice(alloc, VERSION.as_bytes())?)
}

/// How a single word ends.
fn word_ending<'a>(alloc: Global, word: &str) -> Result<Ending<'a>, OutOfMemory>
    ensures { IfOk result (λ e. ending_seen e ≡ word_ending word.now) }
{
    if word == "--help" {
        Ok(Ending::plain(0, usage_text(alloc)?))
    } else if word == "--version" {
        Ok(Ending::plain(0, version_text(alloc)?))
    } else {
        Ok(Ending::plain(1, usage_text(alloc)?))
    }
}

/// How words end that are no command on files: `--help` and `--version` are answered, others with the usage text.
pub fn other_ending<'a>(alloc: Global, words: &[String]) -> Result<Ending<'a>, OutOfMemory>
    ensures { IfOk result (λ e. ending_seen e ≡ other_ending (texts words.now)) }
{
    match words {
        [word] => word_ending(alloc, word.as_str()),
        _ => Ok(Ending::plain(1, usage_text(alloc)?)),
    }
}
