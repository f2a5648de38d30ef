//! The top call: from the words of a command line to the output's bytes and the status.
//!
//! `run_command` reads the script and the tables that the words ask for, and puts the answer's text or the line of a refusal.
//! Its contract says which answers may come, and what the two sinks then took: status 0 means that the output took the text
//! of the definitions in `specs/`, and every other status has its cause there.
#![tactic(auto)]

mod check;
mod command;
mod deliver;
mod explain;
mod fetch;
mod joins;
mod laws;
mod modes;
mod orders;
mod query;
mod ready;
mod reply;
mod reports;
mod run;
mod sample;
mod summary;
mod tables;

pub use command::run_command;
pub use command_words::{Command, Mode, WordsError, read_words};
pub use laws::{has_one_outcome, has_outcome};
pub use refusal_lines::{Refusal, put_line};
