// The scope of a script, and what a reference resolves to in it.
ghost use Rattle.std.specs.Prelude.{◌≡◌, ◌<◌, ◌≤◌, length, IfSome};
ghost use Rattle.rpt_base.specs.declared.limits.TheConstants.{MAX_COLUMNS, MAX_RELATIONS};
ghost use Rattle.script_rules.specs.Scope.{IsWithinLimits, kind_at, place_of, relation_at};
ghost use Rattle.script_rules.specs.Scope.{resolve, resolve_in, scope_of, type_at};

use crate::kinds::BindKind;
use crate::sources::{columns_of, is_same, name_of};
use column_classes::ColumnRef;
use rpt_base::{ColumnType, Name};
use sql_text::{ColumnItem, ColumnName, Script};
use std::marker::Model;

/// The scope that names are resolved in, which contracts see as its relations, in the order of FROM.
///
/// It is that of a script within the limits: what resolves a name takes a scope, and neither a script nor its limits.
#[derive(Drop)]
pub struct Scope<'a> {
    script: &'a Script,
}

impl<'a> Model for Scope<'a> {
    ghost use Rattle.std.specs.Prelude.{List};
    ghost use Rattle.script_rules.specs.Scope.{IsWithinLimits, Relation, scope_of};

    ghost Value = { List Relation };

    ghost view = { λ s. scope_of s.script.now };

    ghost invariant = { λ s. IsWithinLimits s.script.now };
}

impl<'a> Scope<'a> {
    /// The scope of a script.
    pub fn of(script: &'a Script) -> Scope<'a>
        requires limits { IsWithinLimits script.now }
        ensures { result ≡ scope_of script.now }
    {
        Scope { script }
    }

    /// The number of relations.
    pub fn relations(&self) -> u32
        ensures count { result ≡ length self.now }
        ensures limit { length self.now ≤ MAX_RELATIONS }
    {
        self.script.select.sources.as_slice().len() as u32
    }

    /// The name that a relation goes by.
    fn name(&self, relation: u32) -> &Name
        requires { relation < length self.now }
        ensures { result.now ≡ (relation_at self.now relation).name }
    {
        name_of(&self.script.select.sources.as_slice()[relation as usize])
    }

    /// The columns of a relation's table.
    pub fn columns(&self, relation: u32) -> &[ColumnItem]
        requires { relation < length self.now }
        ensures columns { result.now ≡ (relation_at self.now relation).columns }
        ensures few { length result.now ≤ MAX_COLUMNS }
    {
        let source = &self.script.select.sources.as_slice()[relation as usize];
        columns_of(self.script.tables.as_slice(), source)
    }

    /// The column that a reference resolves to; or that it names none, or may name columns of two relations or more.
    pub fn resolve(&self, name: &ColumnName) -> Result<ColumnRef, BindKind>
        ensures { result ≡ resolve self.now name.now }
    {
        let mut found = None;
        for relation in 0..self.relations() {
            if let Some(column) = self.resolve_in(relation, name) {
                if found.is_some() {
                    return Err(BindKind::Ambiguous);
                }
                found = Some(column);
            }
        }
        match found {
            Some(column) => Ok(column),
            None => Err(BindKind::UnknownColumn),
        }
    }

    // The column of a relation that a reference may resolve to.
    fn resolve_in(&self, relation: u32, name: &ColumnName) -> Option<ColumnRef>
        requires { relation < length self.now }
        ensures { result ≡ resolve_in name.now relation (relation_at self.now relation) }
    {
        if let Some(given) = &name.relation
            && !is_same(self.name(relation), given)
        {
            return None;
        }
        let place = index_of(self.columns(relation), &name.column)?;
        Some(ColumnRef {
            relation,
            column: place as u32,
        })
    }

    // The type of a column.
    pub(crate) fn type_at(&self, column: ColumnRef) -> Option<ColumnType>
        ensures { result ≡ type_at self.now column }
    {
        if column.relation < self.relations() {
            kind_at(self.columns(column.relation), column.column)
        } else {
            None
        }
    }
}

// The place of the column of this name.
fn index_of(columns: &[ColumnItem], name: &Name) -> Option<usize>
    ensures place { result ≡ place_of columns.now name.now }
    ensures within { IfSome result (λ place. place < length columns.now) }
{
    columns
        .iter()
        .position(|column| is_same(&column.name, name))
}

// The type of the column at a place.
fn kind_at(columns: &[ColumnItem], place: u32) -> Option<ColumnType>
    ensures { result ≡ kind_at columns.now place }
{
    match columns.get(place as usize) {
        Some(column) => Some(column.kind),
        None => None,
    }
}
