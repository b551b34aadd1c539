//! What is refused of the tokens of a source.

use pld_base::Place;
use thiserror::Error;

/// The first place at which the tokens are no module's.
#[derive(Clone, Copy, Debug, PartialEq, Eq, Error)]
pub enum ParseFault {
    /// The tokens up to and with the one at this place begin no module; at the end of the text, they
    /// aren't one.
    #[error("a token that can't stand here")]
    Syntax(Place),
    /// The token at this place opens the 65th nesting.
    #[error("a nesting too deep")]
    TooDeep(Place),
    /// Memory ran out.
    #[error("out of memory")]
    OutOfMemory,
}
