// The lines of a query's relations and variables, and of its order.
ghost use Rattle.std.specs.Prelude.{◌≡◌, ◌<◌, ◌++◌, All, IfSome, OnOk, length};
ghost use Rattle.std.specs.Option.{option_map};
ghost use Rattle.bound_query.specs.Query.{IsColumnOf, widths_of};
ghost use Rattle.column_classes.specs.Variables.{AreQueryVariables};
ghost use Rattle.plan_report.specs.Report.{count_line, next_text, order_line};
ghost use Rattle.plan_report.specs.Report.{relation_line, relation_lines, variable_line, variable_lines};
ghost use Rattle.plan_report.specs.Run.{IsRunOf, run_counts};

use crate::pieces::{put, put_alias, put_column, put_number, table_at};
use crate::runs::{RunPart, put_rows};
use bound_query::{Bound, ColumnRef};
use rpt_base::Memory;

/// How many relations there are.
pub(crate) fn put_count(out: &mut Vec<u8>, bound: &Bound) -> Result<(), Memory>
    ensures { OnOk result (out.new.items ≡ out.old.items ++ count_line bound.now.query) }
{
    put(out, b"relations ")?;
    put_number(out, bound.relations())?;
    put(out, b"\n")
}

/// A line for each relation.
pub(crate) fn put_relations(
    out: &mut Vec<u8>,
    bound: &Bound,
    run: &Option<RunPart<'_>>,
) -> Result<(), Memory>
    requires { IfSome run.now (IsRunOf (length bound.now.query.table_of)) }
    ensures { OnOk result (out.new.items ≡ out.old.items
        ++ relation_lines bound.now.query (option_map run_counts run.now)) }
{
    for relation in 0..bound.relations() {
        put_relation(out, bound, run, relation)?;
    }
    Ok(())
}

fn put_relation(
    out: &mut Vec<u8>,
    bound: &Bound,
    run: &Option<RunPart<'_>>,
    relation: u32,
) -> Result<(), Memory>
    requires run { IfSome run.now (IsRunOf (length bound.now.query.table_of)) }
    requires relation { relation < length bound.now.query.table_of }
    ensures { OnOk result (out.new.items ≡ out.old.items
        ++ relation_line bound.now.query (option_map run_counts run.now) relation) }
{
    put(out, b"relation ")?;
    put_alias(out, bound, relation)?;
    put(out, b" ")?;
    put(out, table_at(bound, relation).name.bytes())?;
    put_rows(out, run, bound.relations(), relation)?;
    put(out, b"\n")
}

/// A line for each variable.
pub(crate) fn put_variables(out: &mut Vec<u8>, bound: &Bound) -> Result<(), Memory>
    requires { AreQueryVariables (widths_of bound.now.query)
        bound.now.query.equalities bound.now.known }
    ensures { OnOk result (out.new.items ≡ out.old.items
        ++ variable_lines bound.now.query bound.now.known.variables) }
{
    for variable in 0..bound.variables() {
        put_variable(out, bound, bound.columns_of(variable))?;
    }
    Ok(())
}

fn put_variable(out: &mut Vec<u8>, bound: &Bound, columns: &[ColumnRef]) -> Result<(), Memory>
    requires { All (IsColumnOf bound.now.query) columns.now }
    ensures { OnOk result (out.new.items ≡ out.old.items
        ++ variable_line bound.now.query columns.now) }
{
    put(out, b"variable")?;
    for column in columns {
        put_column(out, bound, *column)?;
    }
    put(out, b"\n")
}

/// The relations in order.
pub(crate) fn put_order(out: &mut Vec<u8>, bound: &Bound, order: &[u32]) -> Result<(), Memory>
    requires { All (λ r. r < length bound.now.query.table_of) order.now }
    ensures { OnOk result (out.new.items ≡ out.old.items ++ order_line bound.now.query order.now) }
{
    put(out, b"order")?;
    for relation in order {
        put_next(out, bound, *relation)?;
    }
    put(out, b"\n")
}

// A relation's name, behind a space.
fn put_next(out: &mut Vec<u8>, bound: &Bound, relation: u32) -> Result<(), Memory>
    requires { relation < length bound.now.query.table_of }
    ensures { OnOk result (out.new.items ≡ out.old.items ++ next_text bound.now.query relation) }
{
    put(out, b" ")?;
    put_alias(out, bound, relation)
}
