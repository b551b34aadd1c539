//! Whether registers may be refused for `buffer`: by the device, and by the strings of a module.

ghost use Rattle.std.specs.Prelude.{◌≡◌, [], ◌∷◌};
ghost use Rattle.decls.specs.Prelude.{list_any, view_decl, view_module, view_section, section_declarations};
ghost use Rattle.abel_tree.specs.declared.declarations.Decl.{Decl};
ghost use Rattle.abel_tree.specs.declared.sections.Section.{Section};
ghost use Rattle.decls.specs.AllDeclarations.{all_declarations};
ghost use Rattle.decls.specs.Buffers.{registers_wait, says_buffer};
ghost use Rattle.decls.specs.NameRefusals.{always_inverts, has_registers};

use crate::saying::all_in;
use abel_tree::{Decl, Module, Section};
use pld_device::{Device, Flip, Loaded};

/// Whether the device has registers, in this mode or in another one.
fn has_registers<D: Device>(device: &Loaded<D>) -> bool
    ensures { result ≡ has_registers D.table }
{
    device.name().has_modes() || device.clock() != 0
}

/// Whether the device has registers and always complements them at their pins.
pub fn always_inverts<D: Device>(device: &Loaded<D>) -> bool
    ensures { result ≡ always_inverts D.table }
{
    let always = match device.flip() {
        Flip::Always => true,
        Flip::AfterRegister => false,
        Flip::BeforeRegister => true,
    };
    has_registers::<D>(device) && always
}

/// Whether registers wait for what is assigned: the device always inverts, and some string says `buffer`.
pub(crate) fn registers_wait<D: Device>(device: &Loaded<D>, source: &Module) -> bool
    ensures { result ≡ registers_wait D.table (view_module source.now) }
{
    always_inverts::<D>(device) && module_says_buffer(source)
}

/// Whether some string of a module says `buffer`.
fn module_says_buffer(source: &Module) -> bool
    ensures { result ≡ list_any says_buffer (all_declarations (view_module source.now)) }
{
    some_say_buffer(source.decls.as_slice()) || sections_say_buffer(source.sections.as_slice())
}

/// Whether some string of these sections does.
fn sections_say_buffer(sections: &[Section]) -> bool
    ensures { result ≡ list_any (λ (x : Section). list_any says_buffer (section_declarations (view_section x ∷ []))) sections.now }
{
    for section in sections {
        if section_says_buffer(section) {
            return true;
        }
    }
    false
}

/// Whether some string of a section does.
fn section_says_buffer(section: &Section) -> bool
    ensures { result ≡ list_any says_buffer (section_declarations (view_section section.now ∷ [])) }
{
    match section {
        Section::Declarations(decls) => some_say_buffer(decls.as_slice()),
        _ => false,
    }
}

/// Whether some string of these declarations does.
fn some_say_buffer(decls: &[Decl]) -> bool
    ensures { result ≡ list_any (λ (d : Decl). says_buffer (view_decl d)) decls.now }
{
    for decl in decls {
        if says_buffer(decl) {
            return true;
        }
    }
    false
}

/// Whether a string of the declaration does.
fn says_buffer(decl: &Decl) -> bool
    ensures { result ≡ says_buffer (view_decl decl.now) }
{
    match decl {
        Decl::Pins {
            names: _,
            numbers: _,
            attributes,
        } => all_in(attributes.as_slice()).buffer,
        Decl::Nodes {
            names: _,
            numbers: _,
            attributes,
        } => all_in(attributes.as_slice()).buffer,
        Decl::Attributes {
            names: _,
            attributes,
        } => all_in(attributes.as_slice()).buffer,
        _ => false,
    }
}
