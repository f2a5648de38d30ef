// What a sample has.
use rpt_base::Name;

/// A script, and the tables that it names.
#[derive(Drop)]
pub struct Sample {
    /// The script, on one line without an end.
    pub script: Vec<u8>,
    /// The name of each table and its text, a header and a line for each row, both ended by a line feed.
    pub tables: Vec<(Name, Vec<u8>)>,
}
