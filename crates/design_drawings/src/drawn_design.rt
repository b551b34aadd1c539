//! What the drawings are made of.

ghost use Rattle.std.specs.Prelude.{◌≡◌};

use abel_tree::Names;
use jedec_reader::FuseFile;
use page_model::PageModel;
use std::alloc::Global;

/// A device's fuses, the names of its pins as a source declares them, and what a page says of both.
#[derive(Clone, Copy)]
pub struct Design<'a> {
    pub alloc: Global,
    pub names: &'a Names,
    pub file: &'a FuseFile,
    pub model: &'a PageModel,
}

impl<'a> Design<'a> {
    /// The levels of the fuses, in order. Takes no memory.
    pub fn levels(&self) -> &'a [bool]
        ensures { result.now ≡ self.now.file.now.fuses }
    {
        let file = self.file;
        file.fuses.levels()
    }
}
