//! What is refused of assignments.

ghost use Rattle.std.specs.Prelude.{◌≡◌, List, ◌++◌, IfOk, OnOk};
ghost use Rattle.abel_tree.specs.Assigned as assigned;
ghost use Rattle.equations.specs.Prelude.{entries_of, first_refusal, view, section_order, Manner, AreFirsts, context_for, left_side, expression_found};
ghost use Rattle.equations.specs.{view_assign, assign_refused, statement_manners};

use crate::conditions::{is_clocked, refuse_value};
use abel_tree::{Assign, earlier};
use name_uses::target_extension;
use pld_base::OutOfMemory;
use pld_device::Device;
use section_targets::{Assigned, SectionScope, Way, check_aims};
use set_expr::SectionFault;
use std::alloc::Global;

/// The first refusal, by place, of an assignment after what was assigned before; how it assigns signals is noted.
pub(crate) fn check_assign<D: Device>(
    alloc: Global,
    scope: &SectionScope<'_, D>,
    assign: &Assign,
    before: &mut Assigned,
) -> Result<Option<SectionFault>, OutOfMemory>
    ensures fault { IfOk result (λ f. (all : List Manner) → AreFirsts before.old all → f ≡ first_refusal section_order (assign_refused (context_for D.table scope.now) all (assigned.target_extension (view assign.now.target)) assign.now.complement assign.now.sign assign.now.sign_place (left_side (context_for D.table scope.now) assign.now.place (view assign.now.target)) (expression_found (entries_of scope.now) (view assign.now.value)))) }
    ensures before { OnOk result ((all : List Manner) → AreFirsts before.old all → AreFirsts before.new (all ++ statement_manners (context_for D.table scope.now) (view_assign assign.now))) }
{
    let names = scope.scope();
    let side = scope.target(alloc, assign.place, &assign.target)?;
    let value = names.check(alloc, &assign.value)?;
    match side.fault {
        Some(fault) => Ok(earlier(Some(fault), earlier(value.fault, value.special))),
        None => {
            let aims = side.aims.as_slice();
            let refused = refuse_value(assign.sign_place, aims.len(), value);
            let way = Way {
                extension: target_extension(&assign.target),
                complement: assign.complement,
                clocked: is_clocked(assign.sign),
            };
            let mixed = check_aims::<D>(scope.device(), names, way, aims, before)?;
            Ok(earlier(refused, mixed))
        }
    }
}
