//! Registers that a device can't buffer.

ghost use Rattle.std.specs.Prelude.{◌≡◌, ◌++◌, List, map, slice_get};
ghost use Rattle.declared_names.specs.Prelude.{view_declared, NameFault};
ghost use Rattle.abel_tree.specs.FirstRefusal.{first_refusal};
ghost use Rattle.decls.specs.FaultOrder.{name_order};
ghost use Rattle.declared_names.specs.{is_register, refused_for};

use crate::kinds::is_signal;
use abel_tree::{Attributes, Declared};
use bitflags::Flags;
use decls::{Buffered, NameFault, always_inverts, first_of};
use pld_device::{Device, Loaded};

/// Whether the name of a number is a register.
fn is_register(list: &[Declared], number: usize) -> bool
    ensures { result ≡ is_register (slice_get (map view_declared list.now) number) }
{
    match list.get(number) {
        Some(declared) => {
            is_signal(&declared.meaning) && declared.attributes.contains(Attributes::REG)
        }
        None => false,
    }
}

/// The first refusal, counting the registers among these names that the device can't buffer.
pub(crate) fn first_refused<D: Device>(
    device: &Loaded<D>,
    fault: Option<NameFault>,
    list: &[Declared],
    names: &[Buffered],
) -> Option<NameFault>
    ensures { (fs : List NameFault) → fault ≡ first_refusal name_order fs → result ≡ first_refusal name_order (fs ++ refused_for D.table (map view_declared list.now) names.now) }
{
    if always_inverts::<D>(device) {
        let mut first = fault;
        for name in names {
            if is_register(list, name.number) {
                first = first_of(first, NameFault::BadAttribute(name.place));
            }
        }
        return first;
    }
    fault
}
