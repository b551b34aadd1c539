//! A module with the pins that its names were given.

ghost use Rattle.std.specs.Prelude.{◌≡◌, ◌≤◌, ◌++◌, ◌&&◌, ℕ, Bool, not, IfOk, OnOk, length, map};
ghost use Rattle.placer.specs.Prelude.{view_declared, Declarations, view_decl, view_module, view_section, view_stmt};
ghost use Rattle.placer.specs.Marks.{HasMarks};
ghost use Rattle.placer.specs.Given.{AreKnown, IsEachPinned, module_given, pins_given, released_if, section_given};
ghost use Rattle.placer.specs.PlacedModule.{with_equations};
ghost use Rattle.placer.specs.Placements.{all_released, is_node};

use crate::pins::{PlacedPins, is_node};
use crate::writing::released;
use abel_tree::{Decl, Declared, Module, Section, Stmt};
use pld_base::{ListOf, OutOfMemory, level_at};
use std::alloc::Global;

/// Whether it is a node whose enable isn't assigned.
fn is_released(declared: &Declared, is_enabled: bool) -> bool
    ensures { result ≡ (is_node (view_declared declared.now).kind && not is_enabled) }
{
    is_node(&declared.meaning) && !is_enabled
}

/// Adds the equation that releases the pin of a node.
fn add_released(
    alloc: Global,
    list: &mut Vec<Stmt>,
    declared: &Declared,
    is_enabled: bool,
) -> Result<(), OutOfMemory>
    ensures { OnOk result (map view_stmt list.new.items ≡ map view_stmt list.old.items ++ released_if (view_declared declared.now) is_enabled) }
{
    if !is_released(declared, is_enabled) {
        return Ok(());
    }
    let statement = released(alloc, declared.place, declared.name.bytes())?;
    list.push(statement)?;
    Ok(())
}

impl PlacedPins {
    /// The equations that release the pins of nodes; `enabled` has bit k if the enable of the signal at place k is
    /// assigned.
    fn all_released(
        &self,
        alloc: Global,
        names: &[Declared],
        enabled: u32,
    ) -> Result<Vec<Stmt>, OutOfMemory>
        requires pins { IsEachPinned (length names.now) self.now }
        requires few { length self.now.signals.items ≤ 32 }
        ensures { IfOk result (λ v. (has : ℕ → Bool) → HasMarks self.now.signals.items has enabled → map view_stmt v.items ≡ all_released (map view_declared names.now) has (pins_given self.now)) }
    {
        let mut list = Vec::new(alloc);
        for (place, signal) in self.signals.iter().enumerate() {
            let is_enabled = level_at(enabled, place as u8);
            add_released(alloc, &mut list, &names[*signal], is_enabled)?;
        }
        Ok(list)
    }

    /// A section of declarations with the pins.
    fn placed_list(
        &self,
        alloc: Global,
        names: &[Declared],
        decls: ListOf<Decl>,
    ) -> Result<Section, OutOfMemory>
        requires { IsEachPinned (length names.now) self.now }
        ensures { IfOk result (λ s. AreKnown (map view_declared names.now) → view_section s ≡ section_given (map view_declared names.now) self.now (Declarations (map view_decl decls))) }
    {
        let placed = self.placed_declarations(alloc, names, decls)?;
        Ok(Section::Declarations(placed))
    }

    /// What represents a section.
    fn placed_section(
        &self,
        alloc: Global,
        names: &[Declared],
        section: Section,
    ) -> Result<Section, OutOfMemory>
        requires { IsEachPinned (length names.now) self.now }
        ensures { IfOk result (λ s. AreKnown (map view_declared names.now) → view_section s ≡ section_given (map view_declared names.now) self.now (view_section section)) }
    {
        match section {
            Section::Declarations(decls) => self.placed_list(alloc, names, decls),
            other => Ok(other),
        }
    }

    /// What represents sections.
    fn placed_sections(
        &self,
        alloc: Global,
        names: &[Declared],
        sections: ListOf<Section>,
    ) -> Result<Vec<Section>, OutOfMemory>
        requires { IsEachPinned (length names.now) self.now }
        ensures { IfOk result (λ v. AreKnown (map view_declared names.now) → map view_section v.items ≡ map (section_given (map view_declared names.now) self.now) (map view_section sections)) }
    {
        let mut list = Vec::new(alloc);
        for section in sections.into_vec() {
            let placed = self.placed_section(alloc, names, section)?;
            list.push(placed)?;
        }
        Ok(list)
    }

    /// The module with the pins, and with these equations after all else.
    fn placed_module(
        &self,
        alloc: Global,
        names: &[Declared],
        released: Vec<Stmt>,
        source: Module,
    ) -> Result<Module, OutOfMemory>
        requires { IsEachPinned (length names.now) self.now }
        ensures { IfOk result (λ m. AreKnown (map view_declared names.now) → view_module m ≡ module_given (map view_declared names.now) self.now (map view_stmt released.items) (view_module source)) }
    {
        let Module {
            place,
            name,
            title,
            options,
            decls,
            sections,
        } = source;
        let placed = self.placed_declarations(alloc, names, decls)?;
        let parts = self.placed_sections(alloc, names, sections)?;
        let whole = with_equations(parts, released)?;
        Ok(Module {
            place,
            name,
            title,
            options,
            decls: placed,
            sections: ListOf::from_vec(whole),
        })
    }

    /// The module with the pins, whose nodes among them are released; `enabled` has bit k if the enable of the signal at
    /// place k is assigned.
    pub(crate) fn rebuilt(
        &self,
        alloc: Global,
        names: &[Declared],
        enabled: u32,
        source: Module,
    ) -> Result<Module, OutOfMemory>
        requires pins { IsEachPinned (length names.now) self.now }
        requires few { length self.now.signals.items ≤ 32 }
        ensures { IfOk result (λ m. (has : ℕ → Bool) → HasMarks self.now.signals.items has enabled → AreKnown (map view_declared names.now) → view_module m ≡ module_given (map view_declared names.now) self.now (all_released (map view_declared names.now) has (pins_given self.now)) (view_module source)) }
    {
        let released = self.all_released(alloc, names, enabled)?;
        self.placed_module(alloc, names, released, source)
    }
}

/// One more section, if there are equations for it.
fn with_equations(
    mut sections: Vec<Section>,
    equations: Vec<Stmt>,
) -> Result<Vec<Section>, OutOfMemory>
    ensures { IfOk result (λ v. map view_section v.items ≡ map view_section sections.items ++ with_equations (map view_stmt equations.items)) }
{
    if equations.as_slice().is_empty() {
        return Ok(sections);
    }
    let list = ListOf::from_vec(equations);
    sections.push(Section::Equations(list))?;
    Ok(sections)
}
