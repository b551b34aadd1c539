//! A module with the parts of its sections.

ghost use Rattle.std.specs.Prelude.{◌≡◌, IfOk, map};
ghost use Rattle.abel_tree.specs.View.{view_module, view_section};
ghost use Rattle.name_uses.specs.Viewed.{view_section_parts, with_parts};

use crate::part::Part;
use crate::sections::parts_of;
use abel_tree::{Module, Section};
use pld_base::OutOfMemory;
use std::alloc::Global;
use std::marker::Model;

/// A section with its parts, in order of the source; one of DECLARATIONS has none.
#[derive(Drop)]
pub struct SectionParts<'a> {
    pub section: &'a Section,
    pub parts: Vec<Part<'a>>,
}

/// A module with the parts of its sections, which are gone through once for all that asks for their names. A contract sees
/// the module.
#[derive(Drop)]
pub struct ModuleParts<'a> {
    module: &'a Module,
    sections: Vec<SectionParts<'a>>,
}

impl<'a> Model for ModuleParts<'a> {
    ghost use Rattle.std.specs.Prelude.{◌≡◌, map};
    ghost use Rattle.std.specs.Coded.{codes};
    ghost use Rattle.abel_tree.specs.contracts.diagrams.Arm as transition;
    ghost use Rattle.abel_tree.specs.contracts.expressions.Expr as expression;
    ghost use Rattle.abel_tree.specs.contracts.statements.Stmt as statement;
    ghost use Rattle.abel_tree.specs.declared.sections.Module.{Module};
    ghost use Rattle.abel_tree.specs.View.{view_module};
    ghost use Rattle.name_uses.specs.Viewed.{view_section_parts, with_parts};

    ghost Value = { Module };

    ghost coded = { Prim.hlevel (codes, expression.the_row.coded, statement.the_row.coded, transition.the_row.coded) };

    ghost view = { λ s. s.module.now };

    ghost invariant = { λ s. map view_section_parts s.sections.items ≡ map with_parts (view_module s.module.now).sections };
}

impl<'a> ModuleParts<'a> {
    /// Goes through the sections of a module.
    pub fn new(alloc: Global, module: &'a Module) -> Result<ModuleParts<'a>, OutOfMemory>
        ensures { IfOk result (λ s. s ≡ module.now) }
    {
        let sections = all_parts(alloc, module.sections.as_slice())?;
        Ok(ModuleParts { module, sections })
    }

    /// The module.
    pub fn module(&self) -> &'a Module
        ensures { result.now ≡ self.now }
    {
        self.module
    }

    /// Its sections with their parts.
    pub fn sections(&self) -> &[SectionParts<'a>]
        ensures { map view_section_parts result.now ≡ map with_parts (view_module self.now).sections }
    {
        self.sections.as_slice()
    }
}

/// Sections with their parts.
fn all_parts<'a>(
    alloc: Global,
    sections: &'a [Section],
) -> Result<Vec<SectionParts<'a>>, OutOfMemory>
    ensures { IfOk result (λ list. map view_section_parts list.items ≡ map with_parts (map view_section sections.now)) }
{
    let mut list = Vec::new(alloc);
    for section in sections {
        let parts = parts_of(alloc, section)?;
        list.push(SectionParts { section, parts })?;
    }
    Ok(list)
}
