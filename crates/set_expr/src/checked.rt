//! What the check of an expression finds.

use crate::fault::SectionFault;
use crate::shaped::Shape;

/// The first refusal of an expression, and if nothing is refused its shape and the first of its X positions, as
/// what it is refused as.
#[derive(Clone, Copy, PartialEq, Eq)]
pub struct Checked {
    pub shape: Option<Shape>,
    pub special: Option<SectionFault>,
    pub fault: Option<SectionFault>,
}
