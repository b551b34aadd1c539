//! The scanner: from the bytes of an expanded text to its tokens.
#![tactic(auto)]

mod bytes;
mod fault;
mod keyword;
mod length;
mod number;
mod radix_form;
mod scanning;
mod token;

pub use bytes::{is_blank, is_name_first, is_name_later, is_radix_letter};
pub use fault::ScanFault;
pub use length::{begins_marked, letter_special_len, sign_len, voltage_special_len};
pub use number::number_value;
pub use radix_form::is_radix;
pub use scanning::{place_past, scan};
pub use token::{Token, TokenKind};
