//! What is kept of names, learnt from their declarations.

ghost use Rattle.std.specs.Prelude.{◌≡◌, IfOk};
ghost use Rattle.design_checks.specs.Prelude.{view_declared, view_meaning, view, Context, name_at, term_meant, term_of, context_for};
ghost use Rattle.design_checks.specs.{AreUsesOf, Knows, signal_kept, signal_used, uses_of};

use crate::by_pin::is_enabled_by_pin;
use crate::front::Positions;
use crate::names::{KeptUses, NameUses};
use crate::positions::positions_of;
use crate::reads::first_in;
use crate::rule::{UseRule, refuses_use};
use abel_tree::{Declared, Expr, Extension, Meaning};
use name_uses::names_used;
use pld_base::OutOfMemory;
use pld_device::{Device, Loaded};
use set_expr::Scope;
use std::alloc::Global;

/// The number of a signal, if a rule refuses its use with this extension.
fn signal_used<D: Device>(
    device: &Loaded<D>,
    rule: UseRule,
    declared: &Declared,
    number: usize,
    extension: Option<Extension>,
) -> Option<usize>
    ensures { result ≡ signal_used D.table rule (view_declared declared.now) number extension }
{
    if refuses_use::<D>(device, rule, declared, extension) {
        Some(number)
    } else {
        None
    }
}

/// What is kept of a signal.
fn signal_uses<D: Device>(
    device: &Loaded<D>,
    rule: UseRule,
    declared: &Declared,
    number: usize,
) -> NameUses
    ensures { result ≡ signal_kept D.table rule (view_declared declared.now) number }
{
    NameUses {
        bare: signal_used::<D>(device, rule, declared, number, None),
        q: signal_used::<D>(device, rule, declared, number, Some(Extension::Q)),
        fb: signal_used::<D>(device, rule, declared, number, Some(Extension::Fb)),
        pin: signal_used::<D>(device, rule, declared, number, Some(Extension::Pin)),
        clk: signal_used::<D>(device, rule, declared, number, Some(Extension::Clk)),
        oe: signal_used::<D>(device, rule, declared, number, Some(Extension::Oe)),
        ar: signal_used::<D>(device, rule, declared, number, Some(Extension::Ar)),
        sp: signal_used::<D>(device, rule, declared, number, Some(Extension::Sp)),
        d: signal_used::<D>(device, rule, declared, number, Some(Extension::D)),
        positions: Positions::signal(is_enabled_by_pin::<D>(device, declared)),
    }
}

/// What is kept of a constant.
fn constant_uses(
    alloc: Global,
    names: &KeptUses<'_, '_>,
    expr: &Expr,
) -> Result<NameUses, OutOfMemory>
    ensures { IfOk result (λ n. (d : Context) → Knows d names.now
        → n ≡ uses_of names.now.rule d (term_of d.known (view expr.now))) }
{
    let uses = names_used(alloc, expr)?;
    let list = uses.as_slice();
    Ok(NameUses {
        bare: first_in(alloc, names, list, None)?,
        q: first_in(alloc, names, list, Some(Extension::Q))?,
        fb: first_in(alloc, names, list, Some(Extension::Fb))?,
        pin: first_in(alloc, names, list, Some(Extension::Pin))?,
        clk: first_in(alloc, names, list, Some(Extension::Clk))?,
        oe: first_in(alloc, names, list, Some(Extension::Oe))?,
        ar: first_in(alloc, names, list, Some(Extension::Ar))?,
        sp: first_in(alloc, names, list, Some(Extension::Sp))?,
        d: first_in(alloc, names, list, Some(Extension::D))?,
        positions: positions_of(alloc, names, expr)?,
    })
}

/// What is kept of the name with this number, by what is kept of the names before it.
fn learn<D: Device>(
    alloc: Global,
    device: &Loaded<D>,
    names: &KeptUses<'_, '_>,
    declared: &Declared,
    number: usize,
) -> Result<NameUses, OutOfMemory>
    ensures { IfOk result (λ n. (d : Context) → d.device ≡ D.table
        → name_at d number ≡ view_declared declared.now → Knows d names.now
        → n ≡ uses_of names.now.rule d (term_meant d.known number (view_meaning declared.now.meaning))) }
{
    match &declared.meaning {
        Meaning::Pin { .. } | Meaning::Node(_) => Ok(signal_uses::<D>(
            device, names.rule, declared, number,
        )),
        Meaning::Constant(expr) => constant_uses(alloc, names, expr),
        Meaning::DeviceName => Ok(NameUses::none()),
    }
}

/// What is kept of all names, once for all expressions of a source. Each constant is gone through once, however often it
/// is named.
pub(crate) fn learn_names<D: Device>(
    alloc: Global,
    device: &Loaded<D>,
    rule: UseRule,
    scope: &Scope<'_>,
) -> Result<Vec<NameUses>, OutOfMemory>
    ensures { IfOk result (λ list. AreUsesOf rule (context_for D.table scope.now) scope.now list.items) }
{
    let mut list = Vec::new(alloc);
    for (number, declared) in scope.list().iter().enumerate() {
        let names = KeptUses {
            rule,
            scope: &*scope,
            list: list.as_slice(),
        };
        let uses = learn::<D>(alloc, device, &names, declared, number)?;
        list.push(uses)?;
    }
    Ok(list)
}
