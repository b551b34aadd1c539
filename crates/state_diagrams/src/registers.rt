//! The registers of a diagram.

ghost use Rattle.std.specs.Prelude.{◌++◌, None, List, IfOk, OnOk};
ghost use Rattle.state_diagrams.specs.Prelude.{view, Manner, context_for, AreFirsts, target_member};
ghost use Rattle.state_diagrams.specs.{register_manners, AreRegisters};

use abel_tree::Expr;
use pld_base::OutOfMemory;
use pld_device::Device;
use section_targets::{Assigned, SectionScope, Side, Way, check_aims};
use std::alloc::Global;

/// What is found of the registers of a diagram: the first refusal, or the registers from the left.
pub(crate) fn check_registers<D: Device>(
    alloc: Global,
    scope: &SectionScope<'_, D>,
    registers: &Expr,
    before: &mut Assigned,
) -> Result<Side, OutOfMemory>
    ensures found { IfOk result (λ s. (all : List Manner) → AreFirsts before.old all → AreRegisters (context_for D.table scope.now) all (view registers.now) s) }
    ensures before { OnOk result ((all : List Manner) → AreFirsts before.old all → AreFirsts before.new (all ++ register_manners (target_member (context_for D.table scope.now) (view registers.now)))) }
{
    let side = scope.registers(alloc, registers)?;
    match side.fault {
        Some(_) => Ok(side),
        None => {
            let way = Way {
                extension: None,
                complement: false,
                clocked: true,
            };
            let mixed = check_aims::<D>(
                scope.device(),
                scope.scope(),
                way,
                side.aims.as_slice(),
                before,
            )?;
            Ok(Side {
                aims: side.aims,
                fault: mixed,
            })
        }
    }
}
