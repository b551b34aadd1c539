//! From a module to its netlist for a device.

ghost use Rattle.std.specs.Prelude.{◌≡◌, ◌≤◌, IfOk, IfSome, length};
ghost use Rattle.netlist_rows.specs.Prelude.{entries_of, view_module, design_of, plain_netlist, IsSoundNetlist, MeansTheSame, netlist_of};
ghost use Rattle.set_expr.specs.Scopes.{AreInOrder, ArePlaced};
ghost use Rattle.abel_vectors.specs.AllSections.{AreSections};
ghost use Rattle.netlist_rows.specs.Drawn.{IsDrawn};
ghost use Rattle.netlist_rows.specs.Named.{AreNamesFor};

use abel_tree::{Module, Names};
use abel_vectors::{SourceSections, all_sections};
use bit_expr::Netlist;
use declared_names::{are_numbered, declare, numbered_names};
use design::{gather, names_are_accepted, sound_modules_are_accepted};
use name_uses::ModuleParts;
use pld_base::{OutOfMemory, Vector};
use pld_device::{Device, Loaded};
use section_targets::SectionScope;
use set_expr::{Contributions, Scope};
use std::alloc::Global;

/// A module with its names, what its sections contribute, and its test vectors.
#[derive(Drop)]
pub(crate) struct Drawn {
    pub(crate) module: Module,
    pub(crate) names: Names,
    pub(crate) contributions: Contributions,
    pub(crate) vectors: Vec<Vector>,
}

/// The names of a module for a device, if each pin has a number.
pub(crate) fn names_of<D: Device>(
    alloc: Global,
    device: &Loaded<D>,
    source: &Module,
) -> Option<Names>
    ensures { IfSome result (AreNamesFor D.table (view_module source.now)) }
{
    numbered_names();
    let source = match ModuleParts::new(alloc, source) {
        Ok(source) => source,
        Err(_) => return None,
    };
    match declare::<D>(alloc, device, &source) {
        Ok(names) => {
            if are_numbered(&names) {
                Some(names)
            } else {
                None
            }
        }
        Err(_) => None,
    }
}

/// The names with the signals that each represents.
pub(crate) fn scope_of<'a, D: Device>(
    alloc: Global,
    device: &'a Loaded<D>,
    names: &'a Names,
) -> Result<SectionScope<'a, D>, OutOfMemory>
    requires placed { ArePlaced names.now }
    requires order { AreInOrder (entries_of names.now) }
    ensures { IfOk result (λ s. s ≡ names.now) }
{
    let known = Scope::new(alloc, names)?;
    SectionScope::new(alloc, device, known)
}

fn sections_of<'a, D: Device>(
    alloc: Global,
    device: &'a Loaded<D>,
    source: &Module,
    names: &'a Names,
) -> Option<SourceSections>
    requires { AreNamesFor D.table (view_module source.now) names.now }
    ensures found { IfSome result (AreSections (design_of D.table (view_module source.now))) }
    ensures few { IfSome result (λ found. length found.vectors.items ≤ 9999) }
{
    let scope = scope_of::<D>(alloc, device, names).ok()?;
    match all_sections::<D>(alloc, &scope, source) {
        Ok(found) => Some(found),
        Err(_) => None,
    }
}

/// A module with what is found of it, if nothing is refused of its names and its sections.
pub(crate) fn draw<D: Device>(alloc: Global, device: &Loaded<D>, source: Module) -> Option<Drawn>
    ensures drawn { IfSome result (IsDrawn D.table) }
    ensures few { IfSome result (λ d. length d.vectors.items ≤ 9999) }
{
    let names = names_of::<D>(alloc, device, &source)?;
    let SourceSections {
        contributions,
        vectors,
    } = sections_of::<D>(alloc, device, &source, &names)?;
    names_are_accepted();
    sound_modules_are_accepted();
    Some(Drawn {
        module: source,
        names,
        contributions,
        vectors,
    })
}

/// A module with its netlist.
#[derive(Drop)]
pub(crate) struct ModuleNet {
    pub(crate) module: Module,
    pub(crate) net: Netlist,
}

/// A module with its netlist, which the device can take, and the test vectors, if nothing is refused of the design.
pub(crate) fn gathered<D: Device>(
    alloc: Global,
    device: &Loaded<D>,
    drawn: Drawn,
) -> Option<(ModuleNet, Vec<Vector>)>
    requires drawn { IsDrawn D.table drawn }
    requires few { length drawn.vectors.items ≤ 9999 }
    ensures sound { IfSome result (λ d. IsSoundNetlist D.table d.0.net) }
    ensures module { IfSome result (λ d.
        plain_netlist d.0.net ≡ netlist_of D.table (view_module d.0.module)) }
    ensures same { IfSome result (λ d.
        MeansTheSame D.table (view_module d.0.module) (plain_netlist d.0.net)) }
    ensures few { IfSome result (λ d. length d.1.items ≤ 9999) }
{
    let Drawn {
        module,
        names,
        contributions,
        vectors,
    } = drawn;
    let scope = scope_of::<D>(alloc, device, &names).ok()?;
    let net = {
        let source = match ModuleParts::new(alloc, &module) {
            Ok(source) => source,
            Err(_) => return None,
        };
        match gather::<D>(alloc, &source, &scope, contributions) {
            Ok(net) => net,
            Err(_) => return None,
        }
    };
    Some((ModuleNet { module, net }, vectors))
}
