//! Scripts as text, from their syntax trees.
//!
//! `print` gives the text of a script: its tokens, with one space between two. The layers above rely on this: the text is read
//! back to the same script.
#![tactic(auto)]

mod conditions;
mod pieces;
mod printing;

pub use printing::{print, read_scripts_print};
