// The variables of a query, the pairs of linked columns of each relation, and the variables of each relation.
ghost use Rattle.std.specs.Prelude.{◌≡◌, ◌+◌, ◌<◌, ◌≤◌, ◌↔◌};
ghost use Rattle.std.specs.Prelude.{Any, IfOk, IsTrue, OnOk, Some, length, slice_get};
ghost use Rattle.column_classes.specs.Variables.{AreEqualities, AreOfTwoRelations, AreVariablesOf};
ghost use Rattle.column_classes.specs.Variables.{AreQueryVariables, AreWidths, HaveVariables, lists_in};
ghost use Rattle.column_classes.specs.Labels.{AreByLabel, AreInOrder, AreOfLabel, ArePairsBefore};
ghost use Rattle.column_classes.specs.Labels.{HavePairs, column_at};

use crate::classes::{Labelled, label_columns};
use crate::columns::{ColumnRef, Equality};
use rpt_base::Memory;
use std::alloc::Global;
use std::marker::Model;

/// The variables of a query, numbered from 0 by their least columns. Contracts see them as three lists: the columns of each
/// variable, and for each relation the pairs of its linked columns and the numbers of its variables.
#[derive(Drop)]
pub struct Variables {
    variables: Vec<Vec<ColumnRef>>,
    local: Vec<Vec<(u32, u32)>>,
    sets: Vec<Vec<u32>>,
}

impl Model for Variables {
    ghost use Rattle.std.specs.Prelude.{◌≤◌, length};
    ghost use Rattle.column_classes.specs.Variables.{QueryVariables, known_of};

    ghost Value = { QueryVariables };

    ghost view = { λ v. known_of v.variables.items v.local.items v.sets.items };

    ghost invariant = { λ v. length v.variables.items ≤ 1024 };
}

impl Variables {
    /// The variables of a query whose relations have these numbers of columns, under these equalities.
    pub fn find(alloc: Global, widths: &[u32], equalities: &[Equality]) -> Result<Variables, Memory>
        requires widths { AreWidths widths.now }
        requires equalities { AreEqualities widths.now equalities.now }
        ensures { IfOk result (λ known. AreQueryVariables widths.now equalities.now known) }
    {
        let places = label_columns(alloc, widths, equalities)?;
        let variables = variables_of(alloc, &places)?;
        let local = local_pairs(alloc, widths.len(), &places)?;
        let sets = variable_sets(alloc, widths.len(), &variables)?;
        Ok(Variables {
            variables,
            local,
            sets,
        })
    }

    /// How many variables there are.
    pub fn count(&self) -> u32
        ensures { result ≡ length self.now.variables }
    {
        self.variables.len() as u32
    }

    /// The columns of a variable, by relation and then by column.
    pub fn columns_of(&self, variable: u32) -> &[ColumnRef]
        requires { variable < length self.now.variables }
        ensures { slice_get self.now.variables variable ≡ Some result.now }
    {
        self.variables[variable as usize].as_slice()
    }

    /// The pairs of linked columns of a relation, the lesser first, by the first and then by the second.
    pub fn local(&self, relation: u32) -> &[(u32, u32)]
        requires { relation < length self.now.local }
        ensures { slice_get self.now.local relation ≡ Some result.now }
    {
        self.local[relation as usize].as_slice()
    }

    /// For each relation the numbers of the variables with a column in it, rising.
    pub fn sets(&self) -> &[Vec<u32>]
        ensures { lists_in result.now ≡ self.now.sets }
    {
        self.sets.as_slice()
    }
}

// The classes with columns in two or more relations, by their least columns.
fn variables_of(alloc: Global, places: &[Labelled]) -> Result<Vec<Vec<ColumnRef>>, Memory>
    requires { AreInOrder places.now }
    ensures { IfOk result (λ variables. AreByLabel places.now (length places.now)
        (lists_in variables.items)) }
{
    let mut variables = Vec::new(alloc);
    'places: for place in 0..places.len() {
        if places[place].label == place {
            let class = columns_with(alloc, places, place)?;
            if has_two_relations(&class) {
                variables.push(class)?;
            }
        }
    }
    Ok(variables)
}

// The columns with a label.
fn columns_with(alloc: Global, places: &[Labelled], label: usize) -> Result<Vec<ColumnRef>, Memory>
    requires { AreInOrder places.now }
    ensures { IfOk result (λ columns. AreOfLabel places.now label (length places.now)
        columns.items) }
{
    let mut columns = Vec::new(alloc);
    'places: for i in 0..places.len() {
        if places[i].label == label {
            columns.push(places[i].column)?;
        }
    }
    Ok(columns)
}

// Whether some columns are of different relations, which is so where one is of another relation than the first.
fn has_two_relations(columns: &[ColumnRef]) -> bool
    ensures { IsTrue result ↔ AreOfTwoRelations columns.now }
{
    for column in columns {
        if column.relation != columns[0].relation {
            return true;
        }
    }
    false
}

// For each relation the pairs of its linked columns.
fn local_pairs(
    alloc: Global,
    relations: usize,
    places: &[Labelled],
) -> Result<Vec<Vec<(u32, u32)>>, Memory>
    requires relations { relations ≤ 16 }
    requires places { AreInOrder places.now }
    ensures length { IfOk result (λ local. length local.items ≡ relations) }
    ensures pairs { IfOk result (λ local. HavePairs places.now local.items) }
{
    let mut local = Vec::new(alloc);
    'relations: for relation in 0..relations {
        let pairs = pairs_of(alloc, places, relation as u32)?;
        local.push(pairs)?;
    }
    Ok(local)
}

// The pairs of columns of a relation with one label.
fn pairs_of(alloc: Global, places: &[Labelled], relation: u32) -> Result<Vec<(u32, u32)>, Memory>
    requires { AreInOrder places.now }
    ensures { IfOk result (λ pairs. ArePairsBefore places.now relation
        (length places.now) 0 pairs.items) }
{
    let mut pairs = Vec::new(alloc);
    'places: for i in 0..places.len() {
        if places[i].column.relation == relation {
            add_pairs(&mut pairs, places, i)?;
        }
    }
    Ok(pairs)
}

// Adds the pairs of the column at a place with later columns of its relation.
fn add_pairs(pairs: &mut Vec<(u32, u32)>, places: &[Labelled], i: usize) -> Result<(), Memory>
    requires order { AreInOrder places.now }
    requires place { i < length places.now }
    requires pairs { ArePairsBefore places.now
        (column_at places.now i).relation i 0 pairs.old.items }
    ensures { OnOk result (ArePairsBefore places.now (column_at places.now i).relation
        (i + 1) 0 pairs.new.items) }
{
    let first = places[i];
    'later: for j in i + 1..places.len() {
        let second = places[j];
        if second.column.relation == first.column.relation && second.label == first.label {
            pairs.push((first.column.column, second.column.column))?;
        }
    }
    Ok(())
}

// For each relation the numbers of its variables.
fn variable_sets(
    alloc: Global,
    relations: usize,
    variables: &[Vec<ColumnRef>],
) -> Result<Vec<Vec<u32>>, Memory>
    requires { length variables.now ≤ 1024 }
    ensures length { IfOk result (λ sets. length sets.items ≡ relations) }
    ensures sets { IfOk result (λ sets. HaveVariables (lists_in variables.now) sets.items) }
{
    let mut sets = Vec::new(alloc);
    'relations: for relation in 0..relations {
        let set = set_of(alloc, variables, relation)?;
        sets.push(set)?;
    }
    Ok(sets)
}

// The numbers of the variables with a column in a relation.
fn set_of(alloc: Global, variables: &[Vec<ColumnRef>], relation: usize) -> Result<Vec<u32>, Memory>
    requires { length variables.now ≤ 1024 }
    ensures { IfOk result (λ set. AreVariablesOf (lists_in variables.now) relation set.items) }
{
    let mut set = Vec::new(alloc);
    'variables: for variable in 0..variables.len() {
        if has_column_of(&variables[variable], relation) {
            set.push(variable as u32)?;
        }
    }
    Ok(set)
}

// Whether a column of the relation is among these.
fn has_column_of(columns: &[ColumnRef], relation: usize) -> bool
    ensures { IsTrue result ↔ Any (λ c. c.relation ≡ relation) columns.now }
{
    columns.iter().any(|c| c.relation as usize == relation)
}
