//! Lists, texts, names and the classes of characters: what every other crate of the product is made of.
#![tactic(auto)]

mod class;
mod error;
mod list;
mod name;
mod text;

pub use class::{Class, class_of, is_separator};
pub use error::{NoMemory, TextError};
pub use list::List;
pub use name::Name;
pub use text::{Text, is_ascii};
