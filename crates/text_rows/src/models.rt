//! Sources with the model of the device that they ask for.

use crate::cases::Case;
use crate::declared::{declared, put_name_fault, whole};
use crate::sources::module_of;
use abel_tree::Module;
use decls::NameFault;
use model_choice::wanted_model;
use name_uses::ModuleParts;
use pld_base::Model;
use std::alloc::Global;
use test_rows::{Found, halves};

/// Puts which cells are in the set, from the top one on.
fn put_set(found: &mut Found, set: [bool; 8]) {
    for is_in in &set {
        found.text(if *is_in { "1" } else { "0" });
    }
}

/// Puts a mode with its set.
fn put_model(found: &mut Found, model: Model) {
    match (model.syn, model.ac0) {
        (true, true) => found.text("complex"),
        (true, false) => {
            found.text("simple ");
            put_set(found, model.set)
        }
        (false, _) => {
            found.text("registered ");
            put_set(found, model.set)
        }
    }
}

/// The model that a module asks for.
fn model_of(alloc: Global, module: &Module) -> Result<Model, NameFault> {
    let names = declared(alloc, module)?;
    let source = ModuleParts::new(alloc, module)?;
    let model = wanted_model(alloc, names.device, names.list.as_slice(), &source)?;
    Ok(model)
}

/// The model that a source asks for, or its refusal.
fn model_named(alloc: Global, source: &[u8]) -> Found {
    let mut found = Found::new(alloc);
    let Some(module) = module_of(alloc, source, &mut found) else {
        return found;
    };
    match model_of(alloc, &module) {
        Ok(model) => put_model(&mut found, model),
        Err(fault) => put_name_fault(&mut found, &fault),
    }
    found
}

/// The case of a row `DEVICE DECLARATIONS => MODE SET`.
pub fn models(alloc: Global, text: &str) -> Option<Case> {
    let (text, model) = halves(text)?;
    let source = whole(alloc, text)?;
    let mut expected = Found::new(alloc);
    expected.text(model);
    Some(Case {
        expected,
        found: model_named(alloc, source.bytes()),
    })
}
