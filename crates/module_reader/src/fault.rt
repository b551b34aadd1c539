//! Why a text spells no module.

ghost use Rattle.std.specs.Prelude.{◌≢◌, ℕ, List};
ghost use Rattle.abel_lexer.specs.declared.fault.ScanFault.TheVariants as scan;
ghost use Rattle.abel_expand.specs.Runs.{IsRefusal};
ghost use Rattle.module_reader.specs.Texts.{IsNotScanned, IsNotParsed, IsUnread};

use abel_expand::ExpandFault;
use abel_lexer::ScanFault;
use abel_parser::ParseFault;
use pld_base::OutOfMemory;
use thiserror::Error;

/// Why a text spells no module: the first of expanding, scanning and parsing that is refused. What it carries is
/// never lack of memory.
#[derive(Clone, Copy, Debug, PartialEq, Eq, Error)]
pub enum ReadFault {
    /// A macro or a directive, or the length of the expanded text.
    #[error("the text can't be expanded")]
    Expand(ExpandFault),
    /// The expanded text has no tokens.
    #[error("the text can't be scanned")]
    Scan(ScanFault),
    /// The tokens are no module's.
    #[error("the text is no module")]
    Parse(ParseFault),
    /// Memory ran out.
    #[error("out of memory")]
    OutOfMemory,
}

impl From<OutOfMemory> for ReadFault {
    ghost use Rattle.std.specs.Prelude.{◌≡◌};
    ghost use Rattle.module_reader.specs.declared.fault.ReadFault.TheVariants as fault;

    ghost from_gives = { λ _ e. e ≡ fault.OutOfMemory };

    fn from(_error: OutOfMemory) -> ReadFault {
        ReadFault::OutOfMemory
    }
}

/// Why a text is not expanded.
pub(crate) fn of_expanding(fault: ExpandFault) -> ReadFault
    ensures { (text done : List ℕ) → IsRefusal text done fault → IsUnread text result }
{
    match fault {
        ExpandFault::OutOfMemory => ReadFault::OutOfMemory,
        _ => ReadFault::Expand(fault),
    }
}

/// Why an expanded text is not scanned.
pub(crate) fn of_scanning(fault: ScanFault) -> ReadFault
    ensures { (text : List ℕ) → (fault ≢ scan.OutOfMemory → IsNotScanned text fault) → IsUnread text result }
{
    match fault {
        ScanFault::OutOfMemory => ReadFault::OutOfMemory,
        _ => ReadFault::Scan(fault),
    }
}

/// Why tokens are not parsed.
pub(crate) fn of_parsing(fault: ParseFault) -> ReadFault
    ensures { (text : List ℕ) → IsNotParsed text fault → IsUnread text result }
{
    match fault {
        ParseFault::OutOfMemory => ReadFault::OutOfMemory,
        _ => ReadFault::Parse(fault),
    }
}
