//! From the text of a row to a module.

use abel_tree::Module;
use module_reader::read_module;
use std::alloc::Global;
use test_rows::Found;

/// The line of a source on which the text of a row is, from its first column on.
pub(crate) const ROW: u32 = 4;

/// More bytes than any source of a row has.
const LONGEST: usize = 100_000;

/// The module that a text says, if it says one.
fn read(alloc: Global, text: &[u8]) -> Option<Module> {
    if text.len() > LONGEST {
        return None;
    }
    read_module(alloc, text).ok()
}

/// The module that these bytes spell after MODULE and before END.
pub(crate) fn module_of(alloc: Global, inner: &[u8]) -> Option<Module> {
    let mut source = Found::new(alloc);
    source.text("module m\n");
    source.put(inner);
    source.text("\nend\n");
    read(alloc, source.bytes())
}

/// The module that declares these names, and goes on with the row's text between two others.
pub(crate) fn row_module(
    alloc: Global,
    names: &Found,
    front: &str,
    text: &str,
    back: &str,
) -> Option<Module> {
    let mut inner = Found::new(alloc);
    inner.put(names.bytes());
    inner.text("\n");
    inner.text(front);
    inner.text("\n");
    inner.text(text);
    inner.text(back);
    module_of(alloc, inner.bytes())
}
