//! Tables from the bytes of CSV files.
//!
//! `load` gives the table that a file has for a declaration, or says why it has none. The layers above rely on this: on
//! `Ok` the table's rows are those of the file in `specs/FileTable.antt`, and each refusal comes exactly where that
//! definition has it, at the first bad record and its first bad column.
#![tactic(auto)]

mod errors;
mod fields;
mod layout;
mod loading;
mod records;

pub use errors::LoadError;
pub use loading::load;
