// The pieces of lines, put behind a text.
ghost use Rattle.std.specs.Prelude.{◌≡◌, ◌<◌, ◌++◌, OnOk, length};
ghost use Rattle.std.specs.Fmt.{decimal};
ghost use Rattle.bound_query.specs.Query.{IsColumnOf};
ghost use Rattle.plan_report.specs.Report.{alias_of, column_at, column_text, declaration_at};

use bound_query::{Bound, ColumnRef};
use column_table::{ColumnDecl, Decl};
use itoa::Buffer;
use rpt_base::Memory;

/// Bytes as they are.
pub(crate) fn put(out: &mut Vec<u8>, text: &[u8]) -> Result<(), Memory>
    ensures { OnOk result (out.new.items ≡ out.old.items ++ text.now) }
{
    out.extend_from_slice(text)?;
    Ok(())
}

/// A number in decimal. Its text is written to a buffer on the stack.
pub(crate) fn put_number(out: &mut Vec<u8>, number: u32) -> Result<(), Memory>
    ensures { OnOk result (out.new.items ≡ out.old.items ++ decimal number) }
{
    let mut buffer = Buffer::new();
    put(out, buffer.format(number).as_bytes())
}

/// The same of a longer number.
pub(crate) fn put_long(out: &mut Vec<u8>, number: u64) -> Result<(), Memory>
    ensures { OnOk result (out.new.items ≡ out.old.items ++ decimal number) }
{
    let mut buffer = Buffer::new();
    put(out, buffer.format(number).as_bytes())
}

/// The name that a relation goes by.
pub(crate) fn put_alias(out: &mut Vec<u8>, bound: &Bound, relation: u32) -> Result<(), Memory>
    requires { relation < length bound.now.query.table_of }
    ensures { OnOk result (out.new.items ≡ out.old.items ++ alias_of bound.now.query relation) }
{
    put(out, bound.alias(relation).bytes())
}

/// The table of a relation.
pub(crate) fn table_at(bound: &Bound, relation: u32) -> &Decl
    requires { relation < length bound.now.query.table_of }
    ensures { result.now ≡ declaration_at bound.now.query relation }
{
    bound.decl(bound.table_of(relation))
}

/// A column, behind a space.
pub(crate) fn put_column(out: &mut Vec<u8>, bound: &Bound, column: ColumnRef) -> Result<(), Memory>
    requires { IsColumnOf bound.now.query column }
    ensures { OnOk result (out.new.items ≡ out.old.items ++ column_text bound.now.query column) }
{
    put(out, b" ")?;
    put_alias(out, bound, column.relation)?;
    put(out, b".")?;
    put(out, column_at(bound, column).name.bytes())
}

// A column of the query.
fn column_at(bound: &Bound, column: ColumnRef) -> &ColumnDecl
    requires { IsColumnOf bound.now.query column }
    ensures { result.now ≡ column_at bound.now.query column }
{
    let table = table_at(bound, column.relation);
    &table.columns.as_slice()[column.column as usize]
}
