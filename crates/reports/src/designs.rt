//! The line on a design that is refused.

ghost use Rattle.std.specs.Prelude.{◌≡◌, Some, IfOk};
ghost use Rattle.reports.specs.Prelude.{entries_of};
ghost use Rattle.reports.specs.Designs.{design_text};

use crate::told::told;
use abel_tree::Names;
use design_checks::DesignFault;
use pld_base::OutOfMemory;
use std::alloc::Global;

/// `error NAME at LINE:COLUMN` and the name that is reported, or the names of the chain. Lack of memory has no line.
pub fn design_line(
    alloc: Global,
    names: &Names,
    fault: &DesignFault,
) -> Result<Vec<u8>, OutOfMemory>
    ensures { IfOk result (λ line. design_text (entries_of names.now) fault.now ≡ Some line.items) }
{
    match fault {
        DesignFault::WrongKind(place, name) => told(alloc, names, b"WrongKind", *place, &[*name]),
        DesignFault::RegisteredNode(place, name) => {
            told(alloc, names, b"RegisteredNode", *place, &[*name])
        }
        DesignFault::NoSuchControl(place, name) => {
            told(alloc, names, b"NoSuchControl", *place, &[*name])
        }
        DesignFault::DontCareControl(place, name) => {
            told(alloc, names, b"DontCareControl", *place, &[*name])
        }
        DesignFault::NoReadPath(place, name) => {
            told(alloc, names, b"NoReadPath", *place, &[*name])
        }
        DesignFault::Loop(place, chain) => told(alloc, names, b"Loop", *place, chain.as_slice()),
        DesignFault::ResetReadsRegister(place, chain) => told(
            alloc,
            names,
            b"ResetReadsRegister",
            *place,
            chain.as_slice(),
        ),
        DesignFault::OutOfMemory => Err(OutOfMemory),
    }
}
