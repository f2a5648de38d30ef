// The tables of relations.
ghost use Rattle.std.specs.Prelude.{◌≡◌, ◌<◌, length};
ghost use Rattle.bound_query.specs.Query.{kinds_of};
ghost use Rattle.bound_query.specs.Answer.{AreTables, table_at};

use crate::bound::Bound;
use column_table::Table;

/// The table of a relation, where there is one for each that the query declares, with its columns' types.
pub fn table_at<'t>(bound: &Bound, tables: &'t [Table], relation: u32) -> &'t Table
    requires tables { AreTables bound.now.query tables.now }
    requires relation { relation < length bound.now.query.table_of }
    ensures table { result.now ≡ table_at bound.now.query tables.now relation }
    ensures kinds { result.now.kinds ≡ kinds_of bound.now.query relation }
{
    &tables[bound.table_of(relation) as usize]
}
