// The cells of the rows that a list of row numbers names.
ghost use Rattle.std.specs.Prelude.{◌≡◌};
ghost use Rattle.column_table.specs.Table.{value_of};
ghost use Rattle.bound_query.specs.Query.{IsColumnOf};
ghost use Rattle.bound_query.specs.Answer.{AreTables, tuple_value};
ghost use Rattle.row_output.specs.Tuples.{AreRowNumbers};

use bound_query::{Bound, ColumnRef, table_at};
use column_table::Table;
use rpt_base::Cell;

/// The cell in a column of the query, in the rows that these numbers name.
pub(crate) fn cell_at<'t>(
    bound: &Bound,
    tables: &'t [Table],
    numbers: &[u32],
    column: ColumnRef,
) -> Cell<'t>
    requires tables { AreTables bound.now.query tables.now }
    requires numbers { AreRowNumbers bound.now.query tables.now numbers.now }
    requires column { IsColumnOf bound.now.query column }
    ensures { value_of result ≡ tuple_value bound.now.query tables.now numbers.now column }
{
    let table = table_at(bound, tables, column.relation);
    table.cell(numbers[column.relation as usize], column.column)
}
