//! The drawings of a design, as parts of a page of HTML: its chip, cells, equations, fuses and vectors.
#![tactic(auto)]

mod array;
mod array_heads;
mod array_rows;
mod causes;
mod cells;
mod chip;
mod control_fuses;
mod disagreements;
mod drawn_design;
mod drawn_equations;
mod escaping;
mod labels;
mod lanes;
mod laws;
mod page;
mod pin_words;
mod rows;
mod seen;
mod spans;
mod strips;
mod valued_rows;
mod waves;

pub use array::put_array;
pub use causes::put_cause;
pub use cells::put_cells;
pub use chip::put_chip;
pub use disagreements::put_disagreements;
pub use drawn_design::Design;
pub use drawn_equations::put_equations;
pub use laws::escaped_texts_read_back;
pub use page::{Page, Piece};
pub use strips::{DRAWN, Run};
pub use waves::{firsts_of, put_waves};
