//! Cases as data: the lines of their files, the texts that they write, and how many of them agree.
//!
//! A line is a word and what is behind it. Lines that are blank or begin with `#` say nothing. Three words write a text:
//! `| TEXT` is a line of it, `+ TEXT` a piece without an end of line, and `each 1 64 TEXT` a piece for each of these
//! numbers, which stands in place of `{n}`. In a text `\n`, `\r`, `\t`, `\\` and `\xNN` are bytes.
//!
//! A case of a call is a paragraph, which `Case` describes.
#![tactic(auto)]

mod case;
mod counts;
mod errors;
mod escapes;
mod given;
mod lines;
mod texts;

pub use case::{Case, Entry, read_case};
pub use counts::Counts;
pub use errors::CaseError;
pub use escapes::put_text;
pub use given::put;
pub use lines::{Line, line_of, number_of, numbers_of, pair_of, push_read, set_read};
pub use texts::put_line;
