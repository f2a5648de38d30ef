// Bound queries.
use binder::{BindError, Bound, ColumnRef};
use case_text::{CaseError, put};
use column_table::Table;
use predicate::is_typed;
use rpt_base::ColumnType;
use std::alloc::Global;

/// Puts what a script is bound to: its relations with their linked columns, its written equalities, the columns of each
/// variable, the variables of each relation, and its titles with their columns.
pub fn put_bound(bound: Result<Bound, BindError>, given: &mut String) {
    match bound {
        Ok(bound) => put_query(&bound, given),
        Err(error) => put_refusal(error, given),
    }
}

fn put_refusal(error: BindError, given: &mut String) {
    match error {
        BindError::Refused { kind, at } => put(given, format_args!("{kind:?} at {at}\n")),
        BindError::Memory => put(given, "out of memory\n"),
    }
}

fn put_query(bound: &Bound, given: &mut String) {
    put_relations(bound, given);
    put_equalities(bound, given);
    put_variables(bound, given);
    put_titles(bound, given);
}

fn put_relations(bound: &Bound, given: &mut String) {
    for relation in 0..bound.relations() {
        let alias = bound.alias(relation).as_str();
        let table = bound.decl(bound.table_of(relation)).name.as_str();
        let local = bound.local(relation);
        put(given, format_args!("{alias} of {table} {local:?}\n"));
    }
}

fn put_variables(bound: &Bound, given: &mut String) {
    for variable in 0..bound.variables() {
        put_columns(bound.columns_of(variable), given);
    }
    put(given, "variables of each");
    for set in bound.var_sets() {
        let set = set.as_slice();
        put(given, format_args!(" {set:?}"));
    }
    put(given, "\n");
}

fn put_titles(bound: &Bound, given: &mut String) {
    for column in bound.output() {
        let (relation, number) = (column.source.relation, column.source.column);
        let title = column.title.as_str();
        put(given, format_args!("{title}={relation}.{number}\n"));
    }
}

fn put_equalities(bound: &Bound, given: &mut String) {
    put(given, "equal");
    for equality in bound.equalities() {
        let (left, right) = (equality.left, equality.right);
        put(
            given,
            format_args!(
                " {}.{}={}.{}",
                left.relation, left.column, right.relation, right.column
            ),
        );
    }
    put(given, "\n");
}

fn put_columns(columns: &[ColumnRef], given: &mut String) {
    put(given, "variable");
    for column in columns {
        put(
            given,
            format_args!(" {}.{}", column.relation, column.column),
        );
    }
    put(given, "\n");
}

/// Puts for each relation whether its condition fits the last relation's table.
pub fn put_fits(
    alloc: Global,
    bound: Result<Bound, BindError>,
    given: &mut String,
) -> Result<(), CaseError> {
    match bound {
        Ok(bound) => put_fitting(alloc, &bound, given),
        Err(error) => {
            put_refusal(error, given);
            Ok(())
        }
    }
}

fn put_fitting(alloc: Global, bound: &Bound, given: &mut String) -> Result<(), CaseError> {
    let last = bound.relations() - 1;
    let columns = bound.decl(bound.table_of(last)).columns.as_slice();
    let kinds: Vec<ColumnType> = columns.iter().map(|column| column.kind).collect(alloc)?;
    if kinds.len() > 64 {
        return Err(CaseError::Range);
    }
    let table = Table::new(alloc, &kinds)?;
    for relation in 0..bound.relations() {
        let alias = bound.alias(relation).as_str();
        let fits = is_typed(bound.pred(relation), &table);
        put(given, format_args!("{alias} {fits}\n"));
    }
    Ok(())
}
