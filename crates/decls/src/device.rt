//! The device of a source.

ghost use Rattle.std.specs.Prelude.{◌≡◌, Option, Some, None, IfOk, IfErr, option_copied, map, [], ◌∷◌};
ghost use Rattle.decls.specs.Prelude.{view_decl, view_section, view_module, section_declarations};
ghost use Rattle.abel_meaning.specs.Models.{device_named, unquoted};
ghost use Rattle.pld_base.specs.DeviceNames.{named_device};
ghost use Rattle.decls.specs.declared.fault.NameFault.TheVariants.{UnknownDevice};
ghost use Rattle.decls.specs.AllDeclarations.{all_declarations};
ghost use Rattle.decls.specs.Devices.{device_place, first_string};

use crate::fault::NameFault;
use crate::strings::without_quotes;
use abel_tree::{Decl, Module, Section, Word};
use pld_base::DeviceName;

/// The device that a source names. Takes no memory.
pub fn device_of(source: &Module) -> Result<DeviceName, NameFault>
    ensures named { IfOk result (λ d. device_named (view_module source.now) ≡ Some d) }
    ensures unnamed { IfErr result (λ f. device_named (view_module source.now) ≡ None) }
    ensures refused { IfErr result (λ f. f ≡ UnknownDevice (device_place (view_module source.now))) }
{
    let Some(string) = device_string(source) else {
        return Err(NameFault::UnknownDevice(source.place));
    };
    match device_with(string.text.bytes()) {
        Some(name) => Ok(name),
        None => Err(NameFault::UnknownDevice(string.place)),
    }
}

/// The string of the first DEVICE declaration.
fn device_string(source: &Module) -> Option<&Word>
    ensures { option_copied result ≡ first_string (all_declarations (view_module source.now)) }
{
    match string_among(source.decls.as_slice()) {
        Some(string) => Some(string),
        None => string_in_sections(source.sections.as_slice()),
    }
}

/// The string of a DEVICE declaration.
fn string_of(decl: &Decl) -> Option<&Word>
    ensures { option_copied result ≡ first_string (view_decl decl.now ∷ []) }
{
    match decl {
        Decl::Device { name: _, text } => Some(text),
        _ => None,
    }
}

/// The first such string of these declarations.
fn string_among(decls: &[Decl]) -> Option<&Word>
    ensures { option_copied result ≡ first_string (map view_decl decls.now) }
{
    for decl in decls {
        if let Some(text) = string_of(decl) {
            return Some(text);
        }
    }
    None
}

/// The first such string of a section.
fn string_of_section(section: &Section) -> Option<&Word>
    ensures { option_copied result ≡ first_string (section_declarations (view_section section.now ∷ [])) }
{
    match section {
        Section::Declarations(decls) => string_among(decls.as_slice()),
        _ => None,
    }
}

/// The first such string of these sections.
fn string_in_sections(sections: &[Section]) -> Option<&Word>
    ensures { option_copied result ≡ first_string (section_declarations (map view_section sections.now)) }
{
    for section in sections {
        if let Some(text) = string_of_section(section) {
            return Some(text);
        }
    }
    None
}

/// The device that a string with its quotes names, without regard to case.
fn device_with(text: &[u8]) -> Option<DeviceName>
    ensures { result ≡ named_device (unquoted text.now) }
{
    DeviceName::named(without_quotes(text))
}
