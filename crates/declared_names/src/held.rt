//! Which registers the sections hold.

ghost use Rattle.std.specs.Prelude.{◌≡◌};
ghost use Rattle.declared_names.specs.Prelude.{list_any, part_shares, sections_parts, view_module, view_part};
ghost use Rattle.name_uses.specs.declared.part.Part.{Part};
ghost use Rattle.name_uses.specs.declared.source.SectionParts.{SectionParts};
ghost use Rattle.declared_names.specs.{is_held_at, shares_all};

use crate::marks::{Mark, mark_of};
use abel_tree::Extension;
use name_uses::{ModuleParts, Part, Role, SectionParts, target_extension};

/// What holds registers: whether a reset or a preset holds them all, and the marks of what is read.
#[derive(Drop)]
pub(crate) struct Held {
    pub(crate) all: bool,
    pub(crate) read: Vec<Mark>,
}

impl Held {
    /// Whether the name of this number is held.
    pub(crate) fn is_held(&self, number: usize) -> bool
        ensures { result ≡ is_held_at self.now number }
    {
        self.all || mark_of(self.read.as_slice(), number).strong
    }
}

/// Whether a reset or a preset of the sections holds all registers.
pub(crate) fn are_all_held(source: &ModuleParts<'_>) -> bool
    ensures { result ≡ list_any part_shares (sections_parts (view_module source.now).sections) }
{
    any_shared(source.sections())
}

/// Whether one of these sections has a reset or a preset.
fn any_shared(sections: &[SectionParts<'_>]) -> bool
    ensures { result ≡ list_any (λ (s : SectionParts). list_any (λ (p : Part). shares_all (view_part p)) s.parts.items) sections.now }
{
    sections
        .iter()
        .any(|section| has_shared(section.parts.as_slice()))
}

/// Whether one of these parts is a reset or a preset.
fn has_shared(parts: &[Part<'_>]) -> bool
    ensures { result ≡ list_any (λ (p : Part). shares_all (view_part p)) parts.now }
{
    parts.iter().any(|part| is_shared(part))
}

/// Whether a part is the target of a reset or a preset.
fn is_shared(part: &Part<'_>) -> bool
    ensures { result ≡ shares_all (view_part part.now) }
{
    match part.role {
        Role::Target(_) => matches!(
            target_extension(part.expr),
            Some(Extension::Ar | Extension::Sp)
        ),
        _ => false,
    }
}
