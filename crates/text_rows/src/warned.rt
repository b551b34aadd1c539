//! Sources with the warnings of them.

use crate::declared::{declared, put_name_fault};
use crate::faults::put_refusal;
use crate::sources::{framed, module_of};
use abel_tree::{Module, Names};
use reports::{Cause, Warning, warnings};
use std::alloc::Global;
use test_rows::Found;

/// The name of a cause.
fn cause_text(cause: Cause) -> &'static str {
    match cause {
        Cause::PlusOfSingles => "PlusOfSingles",
        Cause::IdleWord => "IdleWord",
        Cause::SecondAssignment => "SecondAssignment",
        Cause::UnusedPin => "UnusedPin",
        Cause::AssertedAtPowerUp => "AssertedAtPowerUp",
        Cause::NoVectors => "NoVectors",
    }
}

/// Puts a warning: its cause, its place, and its name or word if there is one.
fn put_warning(found: &mut Found, warning: &Warning) {
    put_refusal(found, cause_text(warning.cause), warning.place);
    let name = warning.name.bytes();
    if !name.is_empty() {
        found.text(" ");
        found.put(name);
    }
}

/// Puts the warnings of a source in their order.
fn put_warnings(alloc: Global, found: &mut Found, module: &Module, names: &Names) {
    let Ok(list) = warnings(alloc, module, names) else {
        return found.text("OutOfMemory");
    };
    let mut front = "";
    for warning in list.as_slice() {
        found.text(front);
        put_warning(found, warning);
        front = "; ";
    }
}

/// The warnings of a source whose second line this is, or its refusal.
pub fn warnings_of(alloc: Global, line: &[u8]) -> Found {
    let source = framed(alloc, "module m u device 'P22V10';\n", line, " end");
    let mut found = Found::new(alloc);
    let Some(module) = module_of(alloc, source.bytes(), &mut found) else {
        return found;
    };
    match declared(alloc, &module) {
        Ok(names) => put_warnings(alloc, &mut found, &module, &names),
        Err(fault) => put_name_fault(&mut found, &fault),
    }
    found
}
