// The conditions of syntax trees.
use case_text::put;
use rpt_base::{Comparison, Value};
use sql_text::{ColumnName, Cond, Expr};

/// Puts a condition. A place stands before each test and each operand that has one.
#[cycle(cond)]
pub fn put_cond(cond: &Cond, given: &mut String) {
    match cond {
        Cond::And(members) => put_members("and", members.as_slice(), given),
        Cond::Or(members) => put_members("or", members.as_slice(), given),
        Cond::Not { at, inner } => {
            put(given, format_args!("{at}:no "));
            put_cond(inner.get(), given)
        }
        other => put_test(other, given),
    }
}

#[cycle(cond)]
fn put_members(word: &str, members: &[Cond], given: &mut String) {
    put(given, format_args!("{word}["));
    for member in members {
        put_cond(member, given);
        put(given, ";");
    }
    put(given, "]");
}

fn put_test(cond: &Cond, given: &mut String) {
    match cond {
        Cond::Compare {
            at,
            op,
            left,
            right,
        } => {
            put(given, format_args!("{at}:{} ", op_text(*op)));
            put_expr(left, given);
            put_next(right, given)
        }
        Cond::Between {
            at,
            negated,
            operand,
            low,
            high,
        } => {
            put_head(*at, *negated, "between", operand, given);
            put_next(low, given);
            put_next(high, given)
        }
        other => put_member(other, given),
    }
}

fn put_next(expr: &Expr, given: &mut String) {
    put(given, ",");
    put_expr(expr, given)
}

// A test of a list or a pattern.
fn put_member(cond: &Cond, given: &mut String) {
    match cond {
        Cond::InList {
            at,
            negated,
            operand,
            values,
        } => {
            put_head(*at, *negated, "in", operand, given);
            put_values(values.as_slice(), given)
        }
        Cond::Like {
            at,
            negated,
            operand,
            pattern,
        } => {
            put_head(*at, *negated, "like", operand, given);
            put(given, format_args!(",'{}'", pattern.as_str()));
        }
        _ => {}
    }
}

// The place of a test, its word, and what is tested.
fn put_head(at: u32, negated: bool, word: &str, operand: &Expr, given: &mut String) {
    let not = if negated { "not " } else { "" };
    put(given, format_args!("{at}:{not}{word} "));
    put_expr(operand, given)
}

fn op_text(op: Comparison) -> &'static str {
    match op {
        Comparison::Eq => "=",
        Comparison::Ne => "<>",
        Comparison::Lt => "<",
        Comparison::Le => "<=",
        Comparison::Gt => ">",
        Comparison::Ge => ">=",
    }
}

fn put_values(values: &[Value], given: &mut String) {
    for value in values {
        put(given, ",");
        put_value(value, given);
    }
}

fn put_value(value: &Value, given: &mut String) {
    match value {
        Value::Int(number) => put(given, format_args!("{number}")),
        Value::Text(written) => put(given, format_args!("'{}'", written.as_str())),
    }
}

fn put_expr(expr: &Expr, given: &mut String) {
    match expr {
        Expr::Column(column) => put_column(column, given),
        Expr::Literal { at, value } => {
            put(given, format_args!("{at}:"));
            put_value(value, given)
        }
    }
}

/// Puts a column's name, with its place.
pub fn put_column(column: &ColumnName, given: &mut String) {
    put(given, format_args!("{}:", column.at));
    if let Some(relation) = &column.relation {
        put(given, format_args!("{}.", relation.as_str()));
    }
    put(given, column.column.as_str());
}
