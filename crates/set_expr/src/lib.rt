//! Set expressions by their shapes and refusals, over the names of a source.
#![tactic(auto)]

mod checked;
mod checking;
mod contributions;
mod fault;
mod known;
mod known_name;
mod learning;
mod numbers;
mod rules;
mod scope;
mod shaped;
mod walking;

pub use checked::Checked;
pub use contributions::{Contribution, Contributions, Gives, Guard, Target};
pub use fault::SectionFault;
pub use known_name::KnownName;
pub use numbers::{is_relation, number_of, number_under};
pub use scope::Scope;
pub use shaped::{Shape, Shaped};
