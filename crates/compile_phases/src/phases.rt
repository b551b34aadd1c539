//! The phases of compiling, each with what it is refused for.

ghost use Rattle.std.specs.Prelude.{◌≡◌, ◌≤◌, [], Some, IfOk, IfErr, length, All};
ghost use Rattle.compile_phases.specs.Prelude.{entries_of, first_refusal, ModuleTree, design_of, IsSoundNetlist, first_name_refusal, section_order, AreContributed, AreSections, all_sections_refused, IsFitOf, IsPlacedModule};
ghost use Rattle.jedec_file.specs.TestVectors.{IsTestVector};
ghost use Rattle.abel_tree.specs.View.{view_module};
ghost use Rattle.abel_meaning.specs.Models as strings;
ghost use Rattle.netlist_laws.specs.Takeable.{IsTakeable};
ghost use Rattle.placer.specs.Following.{HasNumberedNames};
ghost use Rattle.compile_phases.specs.declared.fault.CompileFault.TheVariants.{OutOfMemory};
ghost use Rattle.compile_phases.specs.Phases.{AreDeclaredBy, AreNamesFor, IsDesignFault, IsFitRefused, IsNameFault, IsNetlistFor, IsOfPlacing, IsOfSource, IsReadAlone, IsSectionFault, IsTextFault, IsUnnamed};
ghost use Rattle.compile_phases.specs.Placings.{IsUnplacedFor};
ghost use Rattle.compile_phases.specs.SourceRefusals.{IsDesignRefusedFor};

use crate::fault::CompileFault;
use crate::laws::sections_are_accepted;
use crate::refusing::{memory_alone, uncontributed, undesigned, unfit, unnamed, unplaced, unread};
use abel_tree::{Module, Names};
use abel_vectors::{SourceSections, all_sections};
use bit_expr::Netlist;
use declared_names::{declare, numbered_names};
use decls::device_of;
use design::{gather, unrefused_is_takeable};
use fitter::{Fitted, fit};
use module_reader::read_module;
use name_uses::ModuleParts;
use placer::place;
use pld_base::DeviceName;
use pld_device::{Device, Loaded};
use section_targets::SectionScope;
use set_expr::{Contributions, Scope};
use std::alloc::Global;

/// The module of a text.
pub fn module_of(alloc: Global, text: &[u8]) -> Result<Module, CompileFault>
    requires { length text.now ≤ 1048576 }
    ensures ok { IfOk result (λ m. IsReadAlone text.now (view_module m)) }
    ensures err { IfErr result (IsOfSource (IsTextFault text.now)) }
{
    match read_module(alloc, text) {
        Ok(source) => Ok(source),
        Err(fault) => Err(unread(alloc, fault)),
    }
}

/// The device that a module names.
pub fn device_named(alloc: Global, source: &Module) -> Result<DeviceName, CompileFault>
    ensures ok { IfOk result (λ d. strings.device_named (view_module source.now) ≡ Some d) }
    ensures err { IfErr result (IsOfSource (IsNameFault (IsUnnamed (view_module source.now)))) }
{
    match device_of(source) {
        Ok(device) => Ok(device),
        Err(fault) => Err(unnamed(alloc, fault)),
    }
}

/// A module with the parts of its sections, for all phases that ask for names.
pub fn parts_of(alloc: Global, module: &Module) -> Result<ModuleParts<'_>, CompileFault>
    ensures ok { IfOk result (λ source. source ≡ module.now) }
    ensures err { IfErr result (λ e. e ≡ OutOfMemory) }
{
    let source = ModuleParts::new(alloc, module)?;
    Ok(source)
}

/// The names that a source declares.
pub fn declared_of<D: Device>(
    alloc: Global,
    device: &Loaded<D>,
    source: &ModuleParts<'_>,
) -> Result<Names, CompileFault>
    ensures ok { IfOk result (λ n. AreDeclaredBy D.table (view_module source.now) n) }
    ensures err { IfErr result (IsOfSource (IsNameFault (λ f.
        first_name_refusal D.table (view_module source.now) ≡ Some f))) }
{
    match declare::<D>(alloc, device, source) {
        Ok(names) => Ok(names),
        Err(fault) => Err(unnamed(alloc, fault)),
    }
}

/// The source with pins for its signals that have none.
pub fn placed_of<D: Device>(
    alloc: Global,
    device: &Loaded<D>,
    source: Module,
    names: &Names,
) -> Result<Module, CompileFault>
    requires { AreDeclaredBy D.table (view_module source) names.now }
    ensures ok { IfOk result (λ m. IsPlacedModule D.table (view_module source) (view_module m)) }
    ensures numbered { IfOk result (λ m. HasNumberedNames D.table (view_module m)) }
    ensures err { IfErr result (IsOfPlacing (λ f line. IsUnplacedFor f line D.table (view_module source))) }
{
    match place::<D>(alloc, device, source, names) {
        Ok(placed) => Ok(placed),
        Err(fault) => Err(unplaced(alloc, names, fault)),
    }
}

/// The names of a source that is placed.
pub fn names_of<D: Device>(
    alloc: Global,
    device: &Loaded<D>,
    placed: &ModuleParts<'_>,
) -> Result<Names, CompileFault>
    requires { HasNumberedNames D.table (view_module placed.now) }
    ensures ok { IfOk result (λ n. AreNamesFor D.table (view_module placed.now) n) }
    ensures err { IfErr result (λ e. e ≡ OutOfMemory) }
{
    numbered_names();
    match declare::<D>(alloc, device, placed) {
        Ok(names) => Ok(names),
        Err(fault) => Err(memory_alone(fault)),
    }
}

/// The names of a placed source on its device, for all later phases.
pub fn scope_of<'a, D: Device>(
    alloc: Global,
    device: &'a Loaded<D>,
    names: &'a Names,
) -> Result<SectionScope<'a, D>, CompileFault>
    requires source { (m : ModuleTree) × AreNamesFor D.table m names.now }
    ensures ok { IfOk result (λ s. s ≡ names.now) }
    ensures err { IfErr result (λ e. e ≡ OutOfMemory) }
{
    let scope = Scope::new(alloc, names)?;
    let scope = SectionScope::new(alloc, device, scope)?;
    Ok(scope)
}

/// What the sections of a module say.
pub fn sections_of<D: Device>(
    alloc: Global,
    source: &ModuleParts<'_>,
    scope: &SectionScope<'_, D>,
) -> Result<SourceSections, CompileFault>
    requires { AreNamesFor D.table (view_module source.now) scope.now }
    ensures ok { IfOk result (λ found. AreSections (design_of D.table (view_module source.now)) found) }
    ensures few { IfOk result (λ found. length found.vectors.items ≤ 9999) }
    ensures chars { IfOk result (λ found. All (IsTestVector D.table) found.vectors.items) }
    ensures err { IfErr result (IsOfSource (IsSectionFault (entries_of scope.now) (λ f. first_refusal section_order
        (all_sections_refused (design_of D.table (view_module source.now))) ≡ Some f))) }
{
    match all_sections::<D>(alloc, scope, source.module()) {
        Ok(found) => Ok(found),
        Err(fault) => Err(uncontributed(alloc, scope.scope().names(), fault)),
    }
}

/// The netlist of a source.
pub fn netlist_of<D: Device>(
    alloc: Global,
    source: &ModuleParts<'_>,
    scope: &SectionScope<'_, D>,
    found: Contributions,
) -> Result<Netlist, CompileFault>
    requires names { AreNamesFor D.table (view_module source.now) scope.now }
    requires sections { all_sections_refused (design_of D.table (view_module source.now)) ≡ [] }
    requires found { AreContributed (design_of D.table (view_module source.now)) found }
    ensures ok { IfOk result (λ net. IsNetlistFor D.table (view_module source.now) net) }
    ensures takeable { IfOk result (λ _. IsTakeable (design_of D.table (view_module source.now))) }
    ensures err { IfErr result (IsOfSource (IsDesignFault (entries_of scope.now)
        (IsDesignRefusedFor D.table (view_module source.now)))) }
{
    sections_are_accepted();
    unrefused_is_takeable();
    match gather::<D>(alloc, source, scope, found) {
        Ok(net) => Ok(net),
        Err(fault) => Err(undesigned(alloc, scope.scope().names(), fault)),
    }
}

/// The fuses of a netlist.
pub fn fitted_of<D: Device>(
    alloc: Global,
    device: &Loaded<D>,
    names: &Names,
    net: &Netlist,
) -> Result<Fitted, CompileFault>
    requires { IsSoundNetlist D.table net.now }
    ensures ok { IfOk result (λ fitted. IsFitOf D.table net.now fitted) }
    ensures err { IfErr result (IsFitRefused D.table (entries_of names.now) net.now) }
{
    match fit::<D>(alloc, device, net) {
        Ok(fitted) => Ok(fitted),
        Err(fault) => Err(unfit::<D>(alloc, device, names, net, fault)),
    }
}
