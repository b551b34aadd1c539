//! Declarations and sections one after the other.

ghost use Rattle.std.specs.Prelude.{◌≡◌, IfOk, OnOk, true, fold, map};
ghost use Rattle.decls.specs.Prelude.{Table, first_refusal, view_decl, view_module, view_section_parts};
ghost use Rattle.decls.specs.FaultOrder.{name_order};
ghost use Rattle.decls.specs.NameRefusals.{read_refusals};
ghost use Rattle.decls.specs.PartUses.{parted_step};
ghost use Rattle.decls.specs.Passed.{Follows, Way, wants_names, way};
ghost use Rattle.decls.specs.Shown.{Shows};
ghost use Rattle.decls.specs.Steps.{Progress, nothing};
ghost use Rattle.decls.specs.Walked.{declaration_step, module_steps};

use crate::pass::Pass;
use crate::table::NameTable;
use abel_tree::{Decl, Section};
use indexmap::IndexMap;
use name_uses::{ModuleParts, SectionParts};
use pld_base::OutOfMemory;
use pld_device::{Device, Loaded};
use std::alloc::Global;

impl Pass {
    /// Declares what a declaration declares.
    fn declare_decl(&mut self, alloc: Global, decl: &Decl) -> Result<(), OutOfMemory>
        ensures { OnOk result ((w : Way) (s : Progress) → Follows w self.old s → Follows w self.new (declaration_step w.table s (view_decl decl.now))) }
    {
        match decl {
            Decl::Device { name, text: _ } => self.enter_device(alloc, name),
            Decl::Pins {
                names,
                numbers,
                attributes,
            } => self.declare_pins(
                alloc,
                names.as_slice(),
                numbers.as_slice(),
                attributes.as_slice(),
            ),
            Decl::Nodes {
                names,
                numbers,
                attributes,
            } => self.declare_nodes(
                alloc,
                names.as_slice(),
                numbers.as_slice(),
                attributes.as_slice(),
            ),
            Decl::Attributes { names, attributes } => {
                self.declare_attributes(alloc, names.as_slice(), attributes.as_slice())
            }
            Decl::Constants { names, values } => {
                self.use_values(alloc, values.as_slice())?;
                self.declare_values(alloc, names.as_slice(), values.as_slice())
            }
            Decl::Options(_) => Ok(()),
            Decl::DontCare(_) => Ok(()),
        }
    }

    /// Declares what declarations declare.
    fn declare_all(&mut self, alloc: Global, decls: &[Decl]) -> Result<(), OutOfMemory>
        ensures { OnOk result ((w : Way) (s : Progress) → Follows w self.old s → Follows w self.new (fold (declaration_step w.table) s (map view_decl decls.now))) }
    {
        for decl in decls {
            self.declare_decl(alloc, decl)?;
        }
        Ok(())
    }

    /// Declares what a section declares, or refuses what it uses.
    fn read_section(&mut self, alloc: Global, source: &SectionParts<'_>) -> Result<(), OutOfMemory>
        ensures { OnOk result ((w : Way) (s : Progress) → Follows w self.old s
            → Follows w self.new (parted_step w.table s (view_section_parts source.now))) }
    {
        match source.section {
            Section::Declarations(list) => self.declare_all(alloc, list.as_slice()),
            Section::Equations(_) => self.use_parts(alloc, source.parts.as_slice()),
            Section::Table(_) => self.use_parts(alloc, source.parts.as_slice()),
            Section::Diagram(_) => self.use_parts(alloc, source.parts.as_slice()),
            Section::Vectors(_) => self.use_parts(alloc, source.parts.as_slice()),
            Section::DontCare(_) => self.use_parts(alloc, source.parts.as_slice()),
        }
    }

    /// Sections one after the other.
    fn read_sections(
        &mut self,
        alloc: Global,
        sections: &[SectionParts<'_>],
    ) -> Result<(), OutOfMemory>
        ensures { OnOk result ((w : Way) (s : Progress) → Follows w self.old s
            → Follows w self.new (fold (parted_step w.table) s (map view_section_parts sections.now))) }
    {
        for section in sections {
            self.read_section(alloc, section)?;
        }
        Ok(())
    }

    /// A whole module.
    fn read_module(&mut self, alloc: Global, source: &ModuleParts<'_>) -> Result<(), OutOfMemory>
        ensures { OnOk result ((w : Way) → Follows w self.old nothing
            → Follows w self.new (module_steps w.table (view_module source.now))) }
    {
        self.declare_all(alloc, source.module().decls.as_slice())?;
        self.read_sections(alloc, source.sections())
    }
}

/// No name yet.
fn empty_table(alloc: Global, pins: u8, ground: u8) -> NameTable
    ensures { (t : Table) → pins ≡ t.pins → ground ≡ t.ground_pin → Shows t result nothing }
{
    NameTable {
        pins,
        ground,
        names: IndexMap::new(alloc),
        has_device: false,
        nodes: 0,
        taken: Vec::new(alloc),
        waiting: Vec::new(alloc),
        fault: None,
    }
}

/// A pass over a module for a device.
fn pass_over<D: Device>(
    alloc: Global,
    device: &Loaded<D>,
    source: &ModuleParts<'_>,
    skips: bool,
) -> Result<Pass, OutOfMemory>
    ensures { IfOk result (λ d. Follows (way D.table skips) d (module_steps D.table (view_module source.now))) }
{
    let mut pass = Pass {
        table: empty_table(alloc, device.pins(), device.ground()),
        skips,
        skipped: false,
        lost: false,
    };
    pass.read_module(alloc, source)?;
    Ok(pass)
}

/// The names of a module as far as they are wanted, each as it is declared first, and the first refusal of
/// declarations and uses. The names that a string with `buffer` is for wait. They are wanted after a
/// refusal too where registers wait.
pub(crate) fn names_read<D: Device>(
    alloc: Global,
    device: &Loaded<D>,
    source: &ModuleParts<'_>,
    wait: bool,
) -> Result<NameTable, OutOfMemory>
    ensures steps { IfOk result (λ d. wants_names wait d.fault ≡ true
        → Shows D.table d (module_steps D.table (view_module source.now))) }
    ensures fault { IfOk result (λ d. d.fault
        ≡ first_refusal name_order (read_refusals D.table (view_module source.now))) }
{
    let pass = pass_over::<D>(alloc, device, source, !wait)?;
    if !pass.lost {
        return Ok(pass.table);
    }

    // Places of a source grow, so that nothing is lost. In a tree with other places nothing is left out.
    let pass = pass_over::<D>(alloc, device, source, false)?;
    Ok(pass.table)
}
