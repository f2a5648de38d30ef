// Columns of the output.
use column_classes::ColumnRef;
use rpt_base::Name;

/// A column of the output: the column of the query that it shows, and its title.
#[derive(Drop)]
pub struct OutColumn {
    pub source: ColumnRef,
    pub title: Name,
}
