//! The expanded text of a source.

ghost use Rattle.std.specs.Prelude.{◌≡◌, ℕ, ◌≤◌, List, [], None, length, IfOk, IfErr};
ghost use Rattle.abel_expand.specs.Runs.{bytes_given, IsExpanded, IsRefusal};

use crate::fault::ExpandFault;
use crate::reader::Reader;
use std::alloc::Global;

/// All that a reader gives that has given nothing.
#[tactic(auto, using(crate::proofs::Growth::given_below))]
fn read_all(alloc: Global, reader: &mut Reader) -> Result<Vec<u8>, ExpandFault>
    requires going { reader.old.refused ≡ None }
    requires given { bytes_given reader.old ≡ [] }
    ensures text { IfOk result (λ w. IsExpanded reader.old.text w.items) }
    ensures most { IfOk result (λ w. length w.items ≤ 1048576) }
    ensures refused { IfErr result (λ e. (w : List ℕ) × IsRefusal reader.old.text w e) }
{
    let mut bytes = Vec::new(alloc);
    'bytes: loop {
        match reader.next()? {
            Some(byte) => bytes.push(byte)?,
            None => return Ok(bytes),
        }
    }
}

/// The expanded text of a text of at most 1,048,576 bytes, or its refusal with the place after the text
/// done before it (ABEL-HDL Reference Manual, macros and directives).
pub fn expand(alloc: Global, text: &[u8]) -> Result<Vec<u8>, ExpandFault>
    requires { length text.now ≤ 1048576 }
    ensures text { IfOk result (λ w. IsExpanded text.now w.items) }
    ensures most { IfOk result (λ w. length w.items ≤ 1048576) }
    ensures refused { IfErr result (λ e. (w : List ℕ) × IsRefusal text.now w e) }
{
    let mut reader = Reader::new(alloc, text);
    read_all(alloc, &mut reader)
}
