// The classes of columns, kept as a label for each column of the query.
ghost use Rattle.std.specs.Prelude.{◌≡◌, ◌+◌, ◌<◌, ℕ, Any, IfOk, OnOk, length, map};
ghost use Rattle.column_classes.specs.Variables.{AreEqualities, AreWidths};
ghost use Rattle.column_classes.specs.Labels.{AreLabels, AreOwnLabels, merged};

use crate::columns::{ColumnRef, Equality};
use rpt_base::Memory;
use std::alloc::Global;

/// A column of the query, and the label of its class. The columns stand in one list, relation after relation, and a label
/// is the place in that list, from 0, of the least column of the class.
#[derive(Clone, Copy)]
pub(crate) struct Labelled {
    pub(crate) column: ColumnRef,
    pub(crate) label: usize,
}

/// The columns of the query with the labels that the equalities give them.
pub(crate) fn label_columns(
    alloc: Global,
    widths: &[u32],
    equalities: &[Equality],
) -> Result<Vec<Labelled>, Memory>
    requires widths { AreWidths widths.now }
    requires equalities { AreEqualities widths.now equalities.now }
    ensures { IfOk result (λ places. AreLabels widths.now equalities.now places.items) }
{
    let mut places = label_apart(alloc, widths)?;
    for equality in equalities {
        let left = label_of(&places, equality.left);
        let right = label_of(&places, equality.right);
        merge(&mut places, left, right);
    }
    Ok(places)
}

// The columns of the query, each in a class of its own.
fn label_apart(alloc: Global, widths: &[u32]) -> Result<Vec<Labelled>, Memory>
    requires { AreWidths widths.now }
    ensures { IfOk result (λ places. AreOwnLabels widths.now (length widths.now) 0 places.items) }
{
    let mut places = Vec::new(alloc);
    'relations: for relation in 0..widths.len() {
        label_relation(&mut places, widths, relation)?;
    }
    Ok(places)
}

// Adds the columns of a relation.
fn label_relation(places: &mut Vec<Labelled>, widths: &[u32], relation: usize) -> Result<(), Memory>
    requires widths { AreWidths widths.now }
    requires relation { relation < length widths.now }
    requires places { AreOwnLabels widths.now relation 0 places.old.items }
    ensures { OnOk result (AreOwnLabels widths.now (relation + 1) 0 places.new.items) }
{
    'columns: for column in 0..widths[relation] {
        let place = Labelled {
            column: ColumnRef {
                relation: relation as u32,
                column,
            },
            label: places.len(),
        };
        places.push(place)?;
    }
    Ok(())
}

// The label of a column.
fn label_of(places: &[Labelled], column: ColumnRef) -> usize
    requires { Any (λ p. p.column ≡ column) places.now }
    ensures { Any (λ p. (p.column ≡ column) × (p.label ≡ result)) places.now }
{
    for place in places {
        if place.column == column {
            return place.label;
        }
    }
    unreachable!()
}

// Makes two classes one: the columns with the greater label get the lesser.
fn merge(places: &mut [Labelled], left: usize, right: usize)
    ensures { places.new ≡ map (merged left right) places.old }
{
    let lesser = left.min(right);
    let greater = left.max(right);
    for place in places.iter_mut() {
        if place.label == greater {
            place.label = lesser;
        }
    }
}
