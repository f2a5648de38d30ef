//! What the words of a command line ask for.
//!
//! The layers above rely on this: `read_words` gives the command that the words say, and `Usage` comes exactly where they say none.
//! A command's workers and morsel keep to their limits, and in mode sample its script is a number, which `sample_number` gives.
#![tactic(auto)]

mod errors;
mod numbers;
mod settings;
mod words;

pub use errors::WordsError;
pub use numbers::sample_number;
pub use words::{Command, Mode, read_words};
