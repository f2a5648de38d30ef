//! The values that every crate of rpt names: texts, names, values and cells with their order, sets of relations, kinds of filters,
//! and the limits.
//!
//! A text and a name are seen by contracts as the list of their bytes. The layers above rely on this: a text is UTF-8,
//! a name is one that the language allows, in lower case, and values and cells stand in one order.
#![tactic(auto)]

mod comparisons;
mod filters;
pub mod limits;
mod lists;
mod names;
mod sets;
mod texts;
mod values;

pub use comparisons::Comparison;
pub use filters::FilterKind;
pub use lists::Listed;
pub use names::Name;
pub use sets::RelSet;
pub use texts::{Memory, Str, StrError};
pub use values::{Cell, ColumnType, Value};
