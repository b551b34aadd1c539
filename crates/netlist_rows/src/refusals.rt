//! What is refused of a few names of the sample device.

ghost use Rattle.netlist_rows.specs.Prelude.{sample, view_module};
ghost use Rattle.netlist_rows.specs.Named.{AreNamesFor};
ghost use Rattle.netlist_rows.specs.Drawn.{IsDrawn};

use crate::drawing::{Drawn, draw, names_of, scope_of};
use crate::places::{put_refusal, put_word};
use crate::sources::row_module;
use abel_tree::{Module, Names};
use design_checks::{
    DesignFault, RefusedUse, Rule, UseRule, check_signals, first_refused, first_use,
    registered_node,
};
use name_uses::ModuleParts;
use pld_base::OutOfMemory;
use pld_device::{Sample, load};
use std::alloc::Global;
use test_rows::Found;

/// What is refused, as a refusal of this kind, or `none`.
fn put_refused(kind: &str, refused: Option<RefusedUse>, found: &mut Found) {
    match refused {
        Some(it) => put_refusal(kind, it.place, it.name, found),
        None => put_word("none", found),
    }
}

/// What is refused of the signals of a source, one of each kind: a kind, a control that is missing, one that is
/// don't-care, and a node.
fn put_faults(alloc: Global, drawn: &Drawn, found: &mut Found) -> Result<(), OutOfMemory>
    requires { IsDrawn sample drawn.now }
{
    let given = &drawn.contributions;
    let device = load::<Sample, Sample>(&Sample);
    let scope = scope_of::<Sample>(alloc, &device, &drawn.names)?;
    let wrong = first_refused(Rule::Kinds, &scope, given);
    put_refused("WrongKind", wrong, found);
    found.text(";");
    let lacking = first_refused(Rule::Controls, &scope, given);
    put_refused("NoSuchControl", lacking, found);
    found.text(";");
    let any = first_refused(Rule::DontCares, &scope, given);
    put_refused("DontCareControl", any, found);
    found.text(";");
    put_refused("RegisteredNode", registered_node(scope.scope()), found);
    found.text(";");
    Ok(())
}

/// What is refused of the signals of equations.
pub(crate) fn put_signals(
    alloc: Global,
    names: &Found,
    text: &str,
    found: &mut Found,
) -> Option<()> {
    let module = row_module(alloc, names, "equations", text, "")?;
    put_faults(
        alloc,
        &draw::<Sample>(alloc, &load::<Sample, Sample>(&Sample), module)?,
        found,
    )
    .ok()
}

/// The first use of a module with these names that the rule refuses.
fn use_of(
    alloc: Global,
    rule: UseRule,
    module: &Module,
    names: &Names,
) -> Result<Option<RefusedUse>, OutOfMemory>
    requires { AreNamesFor sample (view_module module.now) names.now }
{
    let device = load::<Sample, Sample>(&Sample);
    let scope = scope_of::<Sample>(alloc, &device, names)?;
    let source = ModuleParts::new(alloc, module)?;
    first_use(alloc, rule, &scope, &source)
}

/// The first use of a value that is missing, and the first that can't be read.
pub(crate) fn put_uses(alloc: Global, names: &Found, text: &str, found: &mut Found) -> Option<()> {
    let front = "equations n = 1; R := 0; R.OE = !e; Y =";
    let module = row_module(alloc, names, front, text, ";")?;
    let names = names_of::<Sample>(alloc, &load::<Sample, Sample>(&Sample), &module)?;
    let missing = use_of(alloc, UseRule::Extensions, &module, &names).ok()?;
    put_refused("refused", missing, found);
    found.text(";");
    let unread = use_of(alloc, UseRule::Columns, &module, &names).ok()?;
    put_refused("refused", unread, found);
    Some(())
}

/// What an equation gives a clock or an enable that is another level than the device's.
fn put_level(alloc: Global, drawn: &Drawn, found: &mut Found) -> Result<(), OutOfMemory>
    requires { IsDrawn sample drawn.now }
{
    let device = load::<Sample, Sample>(&Sample);
    let scope = scope_of::<Sample>(alloc, &device, &drawn.names)?;
    let other = first_refused(Rule::Levels, &scope, &drawn.contributions);
    put_refused("refused", other, found);
    Ok(())
}

/// Whether an equation gives another level.
pub(crate) fn put_levels(
    alloc: Global,
    names: &Found,
    text: &str,
    found: &mut Found,
) -> Option<()> {
    let module = row_module(alloc, names, "equations", text, "")?;
    put_level(
        alloc,
        &draw::<Sample>(alloc, &load::<Sample, Sample>(&Sample), module)?,
        found,
    )
    .ok()
}

/// The first refusal of a source's signals.
fn check(alloc: Global, drawn: &Drawn) -> Result<(), DesignFault>
    requires { IsDrawn sample drawn.now }
{
    let device = load::<Sample, Sample>(&Sample);
    let scope = scope_of::<Sample>(alloc, &device, &drawn.names)?;
    let source = ModuleParts::new(alloc, &drawn.module)?;
    check_signals::<Sample>(alloc, &source, &scope, &drawn.contributions)
}

/// The first refusal of the signals of equations.
pub(crate) fn put_design(
    alloc: Global,
    names: &Found,
    text: &str,
    found: &mut Found,
) -> Option<()> {
    let module = row_module(alloc, names, "equations", text, "")?;
    match check(
        alloc,
        &draw::<Sample>(alloc, &load::<Sample, Sample>(&Sample), module)?,
    ) {
        Ok(()) => put_word("none", found),
        Err(DesignFault::WrongKind(place, name)) => put_refusal("WrongKind", place, name, found),
        Err(DesignFault::NoSuchControl(place, name)) => {
            put_refusal("NoSuchControl", place, name, found)
        }
        Err(DesignFault::DontCareControl(place, name)) => {
            put_refusal("DontCareControl", place, name, found)
        }
        Err(_) => put_word("another", found),
    }
    Some(())
}
