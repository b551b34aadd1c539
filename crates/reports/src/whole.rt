//! All warnings of a source.

ghost use Rattle.std.specs.Prelude.{◌≡◌, ◌++◌, IfOk, OnOk, map};
ghost use Rattle.std.specs.List.{flat_map, list_any};
ghost use Rattle.abel_tree.specs.Entries.{entries_of};
ghost use Rattle.abel_tree.specs.View.{view_decl, view_module, view_section};
ghost use Rattle.reports.specs.Warnings.{idle_in, is_vectors, no_vectors_in, warnings_in, warnings_of};

use crate::assignments::find_second_assignments;
use crate::idle_words::find_idle_words;
use crate::sums::find_in_statements;
use crate::warning::{Cause, Found, Warning};
use abel_tree::{Decl, Module, Names, Section};
use pld_base::{ListOf, OutOfMemory};
use std::alloc::Global;

/// Finds the warnings of declarations.
fn find_in_declarations(found: &mut Found, decls: &[Decl]) -> Result<(), OutOfMemory>
    ensures { OnOk result (found.new ≡ found.old ++ flat_map idle_in (map view_decl decls.now)) }
{
    for decl in decls {
        find_idle_words(found, decl)?;
    }
    Ok(())
}

/// Finds the warnings of a section.
fn find_in_section(
    alloc: Global,
    found: &mut Found,
    names: &Names,
    section: &Section,
) -> Result<(), OutOfMemory>
    ensures { OnOk result (found.new
        ≡ found.old ++ warnings_in (entries_of names.now) (view_section section.now)) }
{
    match section {
        Section::Declarations(decls) => find_in_declarations(found, decls.as_slice()),
        Section::Equations(statements) => {
            find_in_statements(found, names, statements.as_slice())?;
            find_second_assignments(alloc, found, statements.as_slice())
        }
        _ => Ok(()),
    }
}

/// Finds the warnings of sections.
fn find_in_sections(
    alloc: Global,
    found: &mut Found,
    names: &Names,
    sections: &[Section],
) -> Result<(), OutOfMemory>
    ensures { OnOk result (found.new
        ≡ found.old ++ flat_map (warnings_in (entries_of names.now)) (map view_section sections.now)) }
{
    for section in sections {
        find_in_section(alloc, found, names, section)?;
    }
    Ok(())
}

/// Whether a section has test vectors.
fn is_vectors(section: &Section) -> bool
    ensures { result ≡ is_vectors (view_section section.now) }
{
    matches!(section, Section::Vectors(_))
}

/// Whether some of the sections has test vectors.
fn has_vectors(sections: &[Section]) -> bool
    ensures { result ≡ list_any (λ s. is_vectors (view_section s)) sections.now }
{
    sections.iter().any(|section| is_vectors(section))
}

/// Says that a source has no test vectors.
fn find_no_vectors(found: &mut Found, module: &Module) -> Result<(), OutOfMemory>
    ensures { OnOk result (found.new ≡ found.old ++ no_vectors_in (view_module module.now)) }
{
    if !has_vectors(module.sections.as_slice()) {
        found.add(Cause::NoVectors, module.place, b"")?;
    }
    Ok(())
}

/// The warnings of a source with these names.
pub fn warnings(
    alloc: Global,
    module: &Module,
    names: &Names,
) -> Result<ListOf<Warning>, OutOfMemory>
    ensures { IfOk result (λ list. list ≡ warnings_of (entries_of names.now) (view_module module.now)) }
{
    let mut found = Found::new(alloc);
    find_in_declarations(&mut found, module.decls.as_slice())?;
    find_in_sections(alloc, &mut found, names, module.sections.as_slice())?;
    find_no_vectors(&mut found, module)?;
    Ok(found.into_list())
}
