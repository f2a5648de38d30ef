// The columns of the output.
ghost use Rattle.std.specs.Prelude.{◌≡◌, ◌<◌, ◌++◌, ◌∷◌, [], IfOk, OnOk, length};
ghost use Rattle.std.specs.List.{enumerate_from, flat_map};
ghost use Rattle.script_rules.specs.Scope.{relation_at};
ghost use Rattle.binder.specs.Binding.{item_output, output_of, relation_output, title_of};

use bound_query::OutColumn;
use column_classes::ColumnRef;
use rpt_base::{Listed, Memory, Name};
use script_rules::Scope;
use sql_text::{Item, Items};
use std::alloc::Global;

/// The output columns.
pub(crate) fn output(
    alloc: Global,
    scope: &Scope,
    items: &Items,
) -> Result<Listed<OutColumn>, Memory>
    ensures { IfOk result (λ columns. columns ≡ output_of scope.now items.now) }
{
    let mut shown = Vec::new(alloc);
    match items {
        Items::Star => add_all(alloc, scope, &mut shown)?,
        Items::List(items) => add_items(alloc, scope, items.as_slice(), &mut shown)?,
    }
    Ok(Listed::from_vec(shown))
}

// Puts the columns of items behind those that are there.
fn add_items(
    alloc: Global,
    scope: &Scope,
    items: &[Item],
    shown: &mut Vec<OutColumn>,
) -> Result<(), Memory>
    ensures { OnOk result (shown.new.items
        ≡ shown.old.items ++ flat_map (item_output scope.now) items.now) }
{
    for item in items {
        add_item(alloc, scope, item, shown)?;
    }
    Ok(())
}

#[tactic(auto, unfolding(crate::specs::Binding::item_output))]
fn add_item(
    alloc: Global,
    scope: &Scope,
    item: &Item,
    shown: &mut Vec<OutColumn>,
) -> Result<(), Memory>
    ensures { OnOk result (shown.new.items ≡ shown.old.items ++ item_output scope.now item.now) }
{
    match scope.resolve(&item.column) {
        Ok(column) => add(alloc, column, title_of(item), shown),
        Err(_) => Ok(()),
    }
}

// The title of an item: the one that is given to it, or else its column's name.
fn title_of(item: &Item) -> &Name
    ensures { result.now ≡ title_of item.now }
{
    match &item.title {
        Some(title) => title,
        None => &item.column.column,
    }
}

// Puts all columns of all relations behind those that are there.
fn add_all(alloc: Global, scope: &Scope, shown: &mut Vec<OutColumn>) -> Result<(), Memory>
    ensures { OnOk result (shown.new.items
        ≡ shown.old.items ++ flat_map relation_output (enumerate_from 0 scope.now)) }
{
    for relation in 0..scope.relations() {
        add_relation(alloc, scope, relation, shown)?;
    }
    Ok(())
}

// The same of the relation of this number.
fn add_relation(
    alloc: Global,
    scope: &Scope,
    relation: u32,
    shown: &mut Vec<OutColumn>,
) -> Result<(), Memory>
    requires { relation < length scope.now }
    ensures { OnOk result (shown.new.items
        ≡ shown.old.items ++ relation_output (relation, relation_at scope.now relation)) }
{
    let columns = scope.columns(relation);
    for (place, column) in columns.iter().enumerate() {
        let source = ColumnRef {
            relation,
            column: place as u32,
        };
        add(alloc, source, &column.name, shown)?;
    }
    Ok(())
}

// Puts a column under a copy of its title behind those that are there.
fn add(
    alloc: Global,
    source: ColumnRef,
    title: &Name,
    shown: &mut Vec<OutColumn>,
) -> Result<(), Memory>
    ensures { OnOk result (shown.new.items
        ≡ shown.old.items ++ record { source = source; title = title.now } ∷ []) }
{
    let title = title.copy(alloc)?;
    shown.push(OutColumn { source, title })?;
    Ok(())
}
