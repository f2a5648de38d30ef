// A case of a call: what is called, of what, and what is wanted.
use crate::errors::CaseError;
use crate::escapes::put_text;
use crate::lines::{Line, line_of};
use crate::texts::put_line;
use std::alloc::Global;

/// A line of a case: its word, and what is behind it and one blank.
#[derive(Drop)]
pub struct Entry {
    pub word: String,
    pub rest: String,
}

/// A call, and the text that it is wanted to give.
///
/// In its paragraph the first line has the call's word, and what is behind that. Lines with other words than those of texts
/// say more of what is called. Lines of text write what the call is asked of. A line `gives TEXT` is a line that is wanted,
/// and lines of text behind it write more of that.
#[derive(Drop)]
pub struct Case {
    /// The call's word.
    pub word: String,
    /// What is behind it.
    pub head: String,
    /// The lines that say more, in order.
    pub entries: Vec<Entry>,
    /// What the lines of text write.
    pub text: Vec<u8>,
    pub wanted: Vec<u8>,
    // Whether a line said what is wanted.
    is_told: bool,
}

impl Case {
    // A case without a line.
    fn new(alloc: Global) -> Case {
        Case {
            word: String::new(alloc),
            head: String::new(alloc),
            entries: Vec::new(alloc),
            text: Vec::new(alloc),
            wanted: Vec::new(alloc),
            is_told: false,
        }
    }

    /// What is behind the call's word, with its escapes, and then what the lines of text write.
    pub fn whole_text(&self, alloc: Global) -> Result<Vec<u8>, CaseError> {
        let mut whole = Vec::new(alloc);
        put_text(&mut whole, self.head.as_str())?;
        whole.extend_from_slice(self.text.as_slice())?;
        Ok(whole)
    }

    fn take(&mut self, alloc: Global, line: Line<'_>) -> Result<(), CaseError> {
        if line.word == "gives" {
            self.is_told = true;
            return put_wanted(&mut self.wanted, line.rest);
        }
        let into = if self.is_told {
            &mut self.wanted
        } else {
            &mut self.text
        };
        if put_line(alloc, into, line)? {
            return Ok(());
        }
        self.take_entry(alloc, line)
    }

    fn take_entry(&mut self, alloc: Global, line: Line<'_>) -> Result<(), CaseError> {
        let word = String::from_str(alloc, line.word)?;
        let rest = String::from_str(alloc, line.rest)?;
        if self.word.is_empty() {
            self.word = word;
            self.head = rest;
            return Ok(());
        }
        self.entries.push(Entry { word, rest })?;
        Ok(())
    }
}

// A line that is wanted; without a text it only begins the lines of text that are.
fn put_wanted(wanted: &mut Vec<u8>, text: &str) -> Result<(), CaseError> {
    if text.is_empty() {
        return Ok(());
    }
    put_text(wanted, text)?;
    put_text(wanted, "\\n")
}

/// The case of a paragraph; none, where nothing is called in it.
pub fn read_case(alloc: Global, paragraph: &str) -> Result<Option<Case>, CaseError> {
    let mut case = Case::new(alloc);
    for line in paragraph.lines() {
        if let Some(line) = line_of(line) {
            case.take(alloc, line)?;
        }
    }
    Ok(if case.word.is_empty() {
        None
    } else {
        Some(case)
    })
}
