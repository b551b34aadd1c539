//! Why a source has no fuse file.

use abel_expand::ExpandFault;
use abel_lexer::ScanFault;
use abel_parser::ParseFault;
use decls::NameFault;
use design::DesignFault;
use fitter::FitFault;
use placer::PlaceFault;
use pld_base::OutOfMemory;
use set_expr::SectionFault;
use std::alloc::AllocError;
use std::fmt::{self, Debug, Formatter};
use thiserror::Error;

/// What is refused of a source. The kinds are in this order, each only if none before it does; what they carry is never
/// lack of memory.
#[derive(Drop, Error)]
pub enum SourceFault {
    /// A macro or a directive, or the length of the expanded text.
    #[error("the text can't be expanded")]
    Expand(ExpandFault),
    /// The expanded text has no tokens.
    #[error("the text can't be scanned")]
    Scan(ScanFault),
    /// The tokens are no module's.
    #[error("the text is no module")]
    Parse(ParseFault),
    /// The device, or a name.
    #[error("a name is refused")]
    Names(NameFault),
    /// A constant or a section.
    #[error("a section is refused")]
    Sections(SectionFault),
    /// The design as a whole.
    #[error("the design is refused")]
    Design(DesignFault),
    /// A written list passes 1,024 products: `TooWide` alone.
    #[error("the design is too wide")]
    Width(FitFault),
}

/// Why a source has no fuse file. A source is refused for its text and its names before its signals are placed, and for
/// everything else after that; `Fit` is last, and is never `TooWide`. The bytes are the report, a line.
#[derive(Drop, Error)]
pub enum CompileFault {
    /// The source is refused.
    #[error("the source is refused")]
    Source(SourceFault, Vec<u8>),
    /// Too few pins are free for the signals that have to be given some: `NoPlacement` alone.
    #[error("the signals can't be placed")]
    Place(PlaceFault, Vec<u8>),
    /// The design does not fit the device.
    #[error("the design does not fit the device")]
    Fit(FitFault, Vec<u8>),
    /// Memory ran out.
    #[error("out of memory")]
    OutOfMemory,
}

impl Debug for SourceFault {
    fn fmt<W: fmt::Write>(&self, f: &mut Formatter<W>) -> fmt::Result {
        write!(f, "{self}")
    }
}

impl Debug for CompileFault {
    fn fmt<W: fmt::Write>(&self, f: &mut Formatter<W>) -> fmt::Result {
        write!(f, "{self}")
    }
}

impl From<OutOfMemory> for CompileFault {
    ghost use Rattle.std.specs.Prelude.{◌≡◌};
    ghost use Rattle.compile_phases.specs.declared.fault.CompileFault.TheVariants as fault;

    ghost from_gives = { λ _ e. e ≡ fault.OutOfMemory };

    fn from(_error: OutOfMemory) -> CompileFault {
        CompileFault::OutOfMemory
    }
}

impl From<AllocError> for CompileFault {
    ghost use Rattle.std.specs.Prelude.{◌≡◌};
    ghost use Rattle.compile_phases.specs.declared.fault.CompileFault.TheVariants as fault;

    ghost from_gives = { λ _ e. e ≡ fault.OutOfMemory };

    fn from(_error: AllocError) -> CompileFault {
        CompileFault::OutOfMemory
    }
}
