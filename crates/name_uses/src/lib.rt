//! The names that the expressions of a source use: one by one, in ranges, and through all its sections.
#![tactic(auto)]

mod name_use;
mod part;
mod ranges;
mod sections;
mod source;
mod statements;
mod targets;
mod transitions;
mod uses;

pub use name_use::NameUse;
pub use part::{Part, Role};
pub use ranges::{is_bad_item, item_count, item_list, names_of_range, range_list};
pub use source::{ModuleParts, SectionParts};
pub use targets::{left_side_targets, target_extension, targets_in};
pub use uses::{names_used, target_names_used};
