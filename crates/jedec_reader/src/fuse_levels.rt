//! The levels of all fuses, from a table of those that lists say.

ghost use Rattle.std.specs.Prelude.{◌≡◌, ◌<◌, ◌^◌, false, nat_lt, if◌then◌else◌, unwrap_or, length, position, is_none, IfOk};
ghost use Rattle.jedec_reader.specs.Prelude.{Gives};
ghost use Rattle.jedec_reader.specs.LevelTable.{default_in, filled};

use jedec_file::JedecFault;
use std::alloc::{AllocError, Global};

/// The level of fuses that are in no list. If none is said each fuse of the table must be in one,
/// and it is of no account.
pub fn default_level(said: Option<bool>, table: &[Option<bool>]) -> Result<bool, JedecFault>
    requires { length table.now < 2 ^ 16 }
    ensures { Gives (λ level. level) result (default_in table.now said) }
{
    match said {
        Some(level) => Ok(level),
        None => match first_unlisted(table) {
            Some(fuse) => Err(JedecFault::Unlisted(fuse)),
            None => Ok(false),
        },
    }
}

/// The first fuse without a level.
fn first_unlisted(table: &[Option<bool>]) -> Option<u16>
    requires { length table.now < 2 ^ 16 }
    ensures { result ≡ position is_none table.now }
{
    for (fuse, level) in table.iter().enumerate() {
        if level.is_none() {
            return Some(fuse as u16);
        }
    }
    None
}

/// The level of each fuse: of the listed ones that of the table, else the default; 0 of those past
/// them.
pub fn fuse_levels(
    alloc: Global,
    table: &[Option<bool>],
    listed: u16,
    default: bool,
) -> Result<Vec<bool>, AllocError>
    ensures { IfOk result (λ levels. levels.items ≡ filled table.now listed default) }
{
    let mut levels = Vec::with_capacity(alloc, table.len())?;
    for (fuse, level) in table.iter().enumerate() {
        levels.push(fuse_level(fuse, *level, listed, default))?;
    }
    Ok(levels)
}

/// The level of one fuse.
fn fuse_level(fuse: usize, level: Option<bool>, listed: u16, default: bool) -> bool
    ensures { result ≡ (if nat_lt fuse listed then unwrap_or level default else false) }
{
    fuse < usize::from(listed) && level.unwrap_or(default)
}
