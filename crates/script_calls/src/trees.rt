// Syntax trees.
use crate::conditions::{put_column, put_cond};
use case_text::put;
use rpt_base::ColumnType;
use sql_text::{CreateTable, Items, Script, Select, Source};

/// Puts a script's tree in one line. A bar stands behind each table, the list of items and each source, and a place before
/// each name.
pub fn put_tree(script: &Script, given: &mut String) {
    for table in script.tables.as_slice() {
        put_table(table, given);
    }
    put_select(&script.select, given);
    put(given, "\n");
}

fn put_table(table: &CreateTable, given: &mut String) {
    put(given, format_args!("{}:{}(", table.at, table.name.as_str()));
    for column in table.columns.as_slice() {
        let kind = match column.kind {
            ColumnType::Int => "int",
            ColumnType::Text => "text",
        };
        put(
            given,
            format_args!("{}:{} {kind},", column.at, column.name.as_str()),
        );
    }
    put(given, ")|");
}

fn put_select(select: &Select, given: &mut String) {
    put_items(&select.items, given);
    for source in select.sources.as_slice() {
        put_source(source, given);
    }
    if let Some(filter) = &select.filter {
        put(given, "where ");
        put_cond(filter, given);
    }
}

fn put_items(items: &Items, given: &mut String) {
    match items {
        Items::Star => put(given, "*"),
        Items::List(items) => {
            for item in items.as_slice() {
                put_column(&item.column, given);
                if let Some(title) = &item.title {
                    put(given, format_args!(" as {}", title.as_str()));
                }
                put(given, ",");
            }
        }
    }
    put(given, "|");
}

fn put_source(source: &Source, given: &mut String) {
    put(
        given,
        format_args!("{}:{}", source.at, source.table.as_str()),
    );
    if let Some(alias) = &source.alias {
        put(
            given,
            format_args!(" as {}:{}", alias.at, alias.name.as_str()),
        );
    }
    if let Some(on) = &source.on {
        put(given, " on ");
        put_cond(on, given);
    }
    put(given, "|");
}
