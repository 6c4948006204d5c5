//! Metadata fields as text: names and values, one pair a line.
//!
//! The grammar is this project's own profile of the metadata of RFC 6968, in the manner of the header
//! fields of RFC 7230, section 3.2.
#![tactic(auto)]

mod fault;
mod field;
mod fields;
mod label;
pub mod laws;
mod lines;
mod reading;
mod span;
mod text;

pub use fault::FieldFault;
pub use field::Field;
pub use fields::Fields;
pub use label::Label;
pub use lines::{clean_text, place_of, split_line, without_return};
pub use text::{is_name, is_value};
