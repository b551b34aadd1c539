//! Words and expressions from tokens; the signs of operators, and how tight each binds.
#![tactic(auto)]

mod expressions;
mod lists;
mod operands;
mod operators;
mod signs;
mod words;

pub use expressions::{expr, set_at};
pub use lists::packed;
pub use operands::name_tree;
pub use operators::{binary_of, join, unary_of};
pub use signs::{
    begins_product, begins_relation, begins_sum, product_sign, relation_sign, sum_sign,
};
pub use words::{dont_care, maybe, name, number, text};
