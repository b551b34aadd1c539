//! The call that declares a module's names.

ghost use Rattle.std.specs.Prelude.{◌≡◌, ◌⊎◌, [], Some, IfOk, IfErr};
ghost use Rattle.declared_names.specs.Prelude.{entries_of, IsNamed, view_module, names_of, first_name_refusal, name_refusals};
ghost use Rattle.decls.specs.declared.fault.NameFault.TheVariants.{OutOfMemory};
ghost use Rattle.declared_names.specs.{AreDeclaredFor, BuffersAreAllowed, NumbersAreApart};

use crate::kinds::settle;
use crate::registers::first_refused;
use abel_tree::Names;
use decls::{NameFault, NamesRead, read_names};
use name_uses::ModuleParts;
use pld_base::ListOf;
use pld_device::{Device, Loaded};
use std::alloc::Global;

/// The names that a module declares for a device, with their kinds and polarities; a register that is free has neither
/// polarity, and a pin without a number has the number 0. Which device the module itself names is not looked at.
pub fn declare<D: Device>(
    alloc: Global,
    device: &Loaded<D>,
    source: &ModuleParts<'_>,
) -> Result<Names, NameFault>
    ensures names { IfOk result (λ n. entries_of n ≡ names_of D.table (view_module source.now)) }
    ensures accepted { IfOk result (λ n. name_refusals D.table (view_module source.now) ≡ []) }
    ensures sound { IfOk result (λ n. AreDeclaredFor D.table.name D.table.pins n) }
    ensures apart { IfOk result (λ n. NumbersAreApart (entries_of n)) }
    ensures buffers { IfOk result (λ n. BuffersAreAllowed D.table (entries_of n)) }
    ensures named { IfOk result (λ n. IsNamed n (view_module source.now)) }

    // Only lack of memory precedes a refusal.
    ensures refused { IfErr result (λ f. (f ≡ OutOfMemory)
        ⊎ (first_name_refusal D.table (view_module source.now) ≡ Some f)) }
{
    let NamesRead {
        list,
        buffered,
        fault,
        registers_wait,
    } = read_names::<D>(alloc, device, source)?;
    // Only a register that waits may be refused before it.
    if !registers_wait {
        if let Some(fault) = fault {
            return Err(fault);
        }
    }
    let list = settle(alloc, device.flip(), list, source)?;
    let refused = first_refused::<D>(device, fault, list.as_slice(), buffered.as_slice());
    match refused {
        Some(fault) => Err(fault),
        None => Ok(Names {
            list: ListOf::from_vec(list),
            device: device.name(),
        }),
    }
}
