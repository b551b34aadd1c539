//! From the text of a source to its module, or to the first refusal by place; each text has one such fate.
#![tactic(auto)]

mod fate_laws;
mod fault;
mod name_laws;
mod reading;

pub use fate_laws::{a_text_has_one_refusal, a_text_is_read_or_refused, a_text_spells_one_module};
pub use fault::ReadFault;
pub use name_laws::{module_names_are_plain, module_names_are_short};
pub use reading::read_module;
