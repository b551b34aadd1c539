//! An equation that is not written as a level is.

ghost use Rattle.std.specs.Prelude.{◌≡◌, ◌≤◌, Bool, IfOk, length};
ghost use Rattle.design_checks.specs.Prelude.{first_refusal, view, Context, name_at, term_of, context_for};
ghost use Rattle.design_checks.specs.{use_order, is_compared_of, may_be_compared, positions_by, Knows, aim_refused, aims_refused, assign_refused, written_if};
ghost use Rattle.design_checks.specs.Written.{Written};

use crate::by_pin::is_compared;
use crate::front::Positions;
use crate::names::KeptUses;
use crate::positions::positions_of;
use crate::refused::{RefusedUse, told_if};
use abel_tree::{Assign, Expr, Extension, earlier};
use name_uses::target_extension;
use pld_base::OutOfMemory;
use pld_device::{Device, Loaded};
use section_targets::{Aim, SectionScope};
use set_expr::Scope;
use std::alloc::Global;

/// Whether an equation with this extension may be compared.
fn may_be_compared(extension: Option<Extension>) -> bool
    ensures { result ≡ may_be_compared extension }
{
    matches!(extension, Some(Extension::Clk | Extension::Oe))
}

/// Whether an equation for the signal with this number is compared.
fn is_compared_at<D: Device>(
    device: &Loaded<D>,
    scope: &Scope<'_>,
    extension: Option<Extension>,
    signal: usize,
) -> bool
    ensures { result ≡ is_compared_of D.table extension (name_at (context_for D.table scope.now) signal) }
{
    let list = scope.list();
    if signal < list.len() {
        is_compared::<D>(device, &list[signal], extension)
    } else {
        matches!(extension, Some(Extension::Clk))
    }
}

/// What is refused of one signal of a target.
fn refused_aim<D: Device>(
    device: &Loaded<D>,
    scope: &Scope<'_>,
    extension: Option<Extension>,
    written: bool,
    aim: Aim,
) -> Option<RefusedUse>
    ensures { result ≡ first_refusal use_order (aim_refused (context_for D.table scope.now) extension written aim) }
{
    let refused = !written && is_compared_at::<D>(device, scope, extension, aim.signal);
    told_if(refused, aim.place, aim.signal)
}

/// The first refusal of the signals of a target.
fn refused_aims<D: Device>(
    device: &Loaded<D>,
    scope: &Scope<'_>,
    extension: Option<Extension>,
    value: Positions,
    aims: &[Aim],
) -> Option<RefusedUse>
    ensures { (w : Written) (b : Bool) → value ≡ positions_by w b → length aims.now ≤ 32
        → result ≡ first_refusal use_order (aims_refused (context_for D.table scope.now) extension w 0 aims.now) }
{
    let mut first = None;
    for position in 0..aims.len() {
        let written = value.is_written_at(position);
        first = earlier(
            first,
            refused_aim::<D>(device, scope, extension, written, aims[position]),
        );
    }
    first
}

/// How a value is written, which is not as a level under a guard.
fn positions_if(
    alloc: Global,
    names: &KeptUses<'_, '_>,
    guarded: bool,
    value: &Expr,
) -> Result<Positions, OutOfMemory>
    ensures { IfOk result (λ p. (d : Context) → Knows d names.now
        → p ≡ positions_by (written_if guarded (term_of d.known (view value.now))) p.by_pin) }
{
    if guarded {
        Ok(Positions::other())
    } else {
        positions_of(alloc, names, value)
    }
}

/// The first refusal of an assignment. If nothing is compared, neither its target nor its value is gone through.
pub(crate) fn refused_assign<D: Device>(
    alloc: Global,
    scope: &SectionScope<'_, D>,
    names: &KeptUses<'_, '_>,
    guarded: bool,
    assign: &Assign,
) -> Result<Option<RefusedUse>, OutOfMemory>
    ensures { IfOk result (λ r. Knows (context_for D.table scope.now) names.now
        → r ≡ first_refusal use_order (assign_refused (context_for D.table scope.now) guarded assign.now.place (view assign.now.target) (view assign.now.value))) }
{
    let extension = target_extension(&assign.target);
    if !may_be_compared(extension) {
        return Ok(None);
    }
    let side = scope.target(alloc, assign.place, &assign.target)?;
    let aims = side.aims.as_slice();
    if aims.len() > 32 {
        return Ok(None);
    }
    let value = positions_if(alloc, names, guarded, &assign.value)?;
    Ok(refused_aims::<D>(scope.device(), scope.scope(), extension, value, aims))
}
