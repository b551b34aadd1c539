//! What the parts of a module read, and of which signals they assign the enable.

ghost use Rattle.std.specs.Prelude.{◌≡◌, IfOk, map, ◌∷◌, []};
ghost use Rattle.name_uses.specs.declared.part.Part.{Part};
ghost use Rattle.name_uses.specs.declared.source.SectionParts.{SectionParts};
ghost use Rattle.placer.specs.Prelude.{flat_map, list_any, target_extension, view, view_module, view_part, view_role, view_section_parts};
ghost use Rattle.placer.specs.Marks.{AreSeen, IsMarkOf};
ghost use Rattle.placer.specs.PartReads.{enabled_in, enables_it, is_enabling, parts_of, read_in, reads_as};
ghost use Rattle.abel_meaning.specs.Reads.{has_enables, is_enable};

use crate::read_names::Naming;
use crate::seen::{NOTHING, Seen, both};
use abel_tree::{Expr, Extension};
use name_uses::{ModuleParts, Part, Role, SectionParts};
use pld_base::OutOfMemory;
use std::alloc::Global;

/// Whether the target is an enable.
fn is_enable(target: &Expr) -> bool
    ensures { result ≡ is_enable (target_extension (view target.now)) }
{
    match target {
        Expr::Name {
            word: _,
            extension: Some(Extension::Oe),
        } => true,
        Expr::Set {
            place: _,
            members: _,
            extension: Some(Extension::Oe),
        } => true,
        _ => false,
    }
}

/// Whether what is in a section in this role is read: a value, a condition, the inputs of a table, and the registers of a
/// diagram.
fn reads_as(role: Role<'_>) -> bool
    ensures { result ≡ reads_as (view_role role.entry) }
{
    match role {
        Role::Value(_) => true,
        Role::Read => true,
        Role::Registers => true,
        Role::Target(_) => false,
        Role::Outputs(_) => false,
        Role::Entry => false,
    }
}

/// Whether what is there in this role is an equation's target that is an enable.
fn is_enabling(role: Role<'_>, expr: &Expr) -> bool
    ensures { result ≡ is_enabling (view_role role.entry) (view expr.now) }
{
    match role {
        Role::Target(_) => is_enable(expr),
        Role::Value(_) => false,
        Role::Read => false,
        Role::Registers => false,
        Role::Outputs(_) => false,
        Role::Entry => false,
    }
}

/// Whether a part is the target of an enable.
fn is_enable_of(part: &Part<'_>) -> bool
    ensures { result ≡ enables_it (view_part part.now) }
{
    is_enabling(part.role, part.expr)
}

/// Whether one of these parts is.
fn has_enable_of(parts: &[Part<'_>]) -> bool
    ensures { result ≡ list_any (λ (p : Part). enables_it (view_part p)) parts.now }
{
    parts.iter().any(|part| is_enable_of(part))
}

/// Whether some part of these sections is.
fn any_enable(sections: &[SectionParts<'_>]) -> bool
    ensures { result ≡ list_any (λ (s : SectionParts). list_any (λ (p : Part). enables_it (view_part p)) s.parts.items) sections.now }
{
    sections
        .iter()
        .any(|section| has_enable_of(section.parts.as_slice()))
}

/// Whether the sections of a module assign an enable. Takes no memory.
pub fn has_enables(source: &ModuleParts<'_>) -> bool
    ensures { result ≡ has_enables (view_module source.now).sections }
{
    any_enable(source.sections())
}

impl Naming {
    /// What a part reads.
    fn read_in(&self, alloc: Global, part: &Part<'_>) -> Result<u32, OutOfMemory>
        ensures { IfOk result (IsMarkOf self.now.reading (λ ks. read_in ks (view_part part.now))) }
    {
        if reads_as(part.role) {
            self.reading.of_uses(alloc, part.uses.as_slice())
        } else {
            Ok(0)
        }
    }

    /// Of which signals a part assigns the enable.
    fn enabled_in(&self, alloc: Global, part: &Part<'_>) -> Result<u32, OutOfMemory>
        ensures { IfOk result (IsMarkOf self.now.targets
            (λ ks. enabled_in ks (view_part part.now))) }
    {
        if is_enabling(part.role, part.expr) {
            self.targets.of_left_side(alloc, part.expr)
        } else {
            Ok(0)
        }
    }

    /// Of a part.
    fn see_part(&self, alloc: Global, part: &Part<'_>) -> Result<Seen, OutOfMemory>
        ensures { IfOk result (AreSeen self.now (view_part part.now ∷ [])) }
    {
        let read = self.read_in(alloc, part)?;
        let enabled = self.enabled_in(alloc, part)?;
        Ok(Seen { read, enabled })
    }

    /// Of the parts of a section.
    fn see_parts(&self, alloc: Global, parts: &[Part<'_>]) -> Result<Seen, OutOfMemory>
        ensures { IfOk result (AreSeen self.now (map view_part parts.now)) }
    {
        let mut seen = NOTHING;
        for part in parts {
            seen = both(seen, self.see_part(alloc, part)?);
        }
        Ok(seen)
    }

    /// Of sections.
    pub(crate) fn see_sections(
        &self,
        alloc: Global,
        sections: &[SectionParts<'_>],
    ) -> Result<Seen, OutOfMemory>
        ensures { IfOk result (AreSeen self.now
            (flat_map parts_of (map view_section_parts sections.now))) }
    {
        let mut seen = NOTHING;
        for section in sections {
            seen = both(seen, self.see_parts(alloc, section.parts.as_slice())?);
        }
        Ok(seen)
    }
}
