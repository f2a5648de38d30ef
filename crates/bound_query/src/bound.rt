// Bound queries.
ghost use Rattle.std.specs.Prelude.{◌≡◌, ◌<◌, ◌≤◌, IsTrue, Some, length, map, slice_get};
ghost use Rattle.std.specs.List.{All};
ghost use Rattle.std.specs.List.Sorted.{IsStrictlyIncreasing};
ghost use Rattle.predicate.specs.Truth.{is_typed};
ghost use Rattle.rpt_base.specs.declared.limits.TheConstants.{MAX_COLUMNS, MAX_RELATIONS};
ghost use Rattle.bound_query.specs.Query.{IsBoundQuery, IsEqualityOf, IsColumnOf, kinds_of, widths_of};
ghost use Rattle.column_classes.specs.Variables.{AreQueryVariables};

use crate::output::OutColumn;
use crate::parts::QueryParts;
use column_classes::{ColumnRef, Equality, Variables};
use column_table::Decl;
use predicate::Pred;
use rpt_base::Name;
use std::marker::Model;

/// A bound query. Relations are numbered from 0 in the order of FROM, and tables in the order of their first
/// use.
#[derive(Drop)]
pub struct Bound {
    parts: QueryParts,
    variables: Variables,
}

impl Model for Bound {
    ghost use Rattle.bound_query.specs.Query.{BoundQuery, IsBoundQuery};

    ghost Value = { BoundQuery };

    ghost use Rattle.predicate.specs.contracts.tree.Pred as condition;
    ghost use Rattle.std.specs.Coded.{codes};

    ghost coded = { Prim.hlevel (codes, condition.the_row.coded) };

    ghost view = { λ b. record { query = b.parts; known = b.variables } };

    ghost invariant = { λ b. IsBoundQuery (record { query = b.parts; known = b.variables }) };
}

impl Bound {
    /// The bound query of these parts, which are in order, and their variables.
    pub fn make(parts: QueryParts, variables: Variables) -> Bound
        requires { IsBoundQuery (record { query = parts; known = variables }) }
        ensures { result ≡ record { query = parts; known = variables } }
    {
        Bound { parts, variables }
    }

    /// The number of relations. The query is in order, and its variables are those of its written
    /// equalities.
    pub fn relations(&self) -> u32
        ensures count { result ≡ length self.now.query.table_of }
        ensures some { 1 ≤ length self.now.query.table_of }
        ensures limit { length self.now.query.table_of ≤ MAX_RELATIONS }
        ensures named { length self.now.query.aliases ≡ length self.now.query.table_of }
        ensures sets { length self.now.known.sets ≡ length self.now.query.table_of }
        ensures bound { IsBoundQuery self.now }
    {
        self.parts.table_of.as_slice().len() as u32
    }

    /// The name that a relation goes by.
    pub fn alias(&self, relation: u32) -> &Name
        requires { relation < length self.now.query.table_of }
        ensures { slice_get self.now.query.aliases relation ≡ Some result.now }
    {
        &self.parts.aliases.as_slice()[relation as usize]
    }

    /// The number of different tables.
    pub fn tables(&self) -> u32
        ensures count { result ≡ length self.now.query.tables }
        ensures limit { length self.now.query.tables ≤ MAX_RELATIONS }
    {
        self.parts.tables.as_slice().len() as u32
    }

    /// The number of a relation's table.
    pub fn table_of(&self, relation: u32) -> u32
        requires { relation < length self.now.query.table_of }
        ensures table { slice_get self.now.query.table_of relation ≡ Some result }
        ensures within { result < length self.now.query.tables }
    {
        self.parts.table_of.as_slice()[relation as usize]
    }

    /// The declaration of a table.
    pub fn decl(&self, table: u32) -> &Decl
        requires { table < length self.now.query.tables }
        ensures decl { slice_get self.now.query.tables table ≡ Some result.now }
        ensures few { length result.now.columns ≤ MAX_COLUMNS }
    {
        &self.parts.tables.as_slice()[table as usize]
    }

    /// The condition of a relation, over the columns of its table.
    pub fn pred(&self, relation: u32) -> &Pred
        requires { relation < length self.now.query.table_of }
        ensures condition { slice_get self.now.query.conditions relation ≡ Some result.now }
        ensures typed { IsTrue (is_typed (kinds_of self.now.query relation) result.now) }
    {
        &self.parts.conditions.as_slice()[relation as usize]
    }

    /// The written equalities in order.
    pub fn equalities(&self) -> &[Equality]
        ensures equalities { result.now ≡ self.now.query.equalities }
        ensures joined { All (IsEqualityOf self.now.query) self.now.query.equalities }
    {
        self.parts.equalities.as_slice()
    }

    /// The columns of the output.
    pub fn output(&self) -> &[OutColumn]
        ensures output { result.now ≡ self.now.query.output }
        ensures shown { All (λ c. IsColumnOf self.now.query c.source) self.now.query.output }
    {
        self.parts.output.as_slice()
    }

    /// The number of variables.
    pub fn variables(&self) -> u32
        ensures { result ≡ length self.now.known.variables }
    {
        self.variables.count()
    }

    /// The columns of a variable, by relation and then by column.
    pub fn columns_of(&self, variable: u32) -> &[ColumnRef]
        requires { variable < length self.now.known.variables }
        ensures { slice_get self.now.known.variables variable ≡ Some result.now }
    {
        self.variables.columns_of(variable)
    }

    /// The pairs of linked columns of a relation, the lesser first, by the first and then by the second
    /// column.
    pub fn local(&self, relation: u32) -> &[(u32, u32)]
        requires { relation < length self.now.query.table_of }
        ensures { slice_get self.now.known.local relation ≡ Some result.now }
    {
        self.variables.local(relation)
    }

    /// For each relation the numbers of the variables with a column in it, rising.
    pub fn var_sets(&self) -> &[Vec<u32>]
        ensures sets { map (λ s. s.items) result.now ≡ self.now.known.sets }
        ensures count { length self.now.known.sets ≡ length self.now.query.table_of }
        ensures some { 1 ≤ length self.now.known.sets }
        ensures limit { length self.now.known.sets ≤ MAX_RELATIONS }
        ensures rise { All (λ s. IsStrictlyIncreasing s) self.now.known.sets }
        ensures few { All (λ s. length s ≤ MAX_COLUMNS) self.now.known.sets }
        ensures known { AreQueryVariables (widths_of self.now.query)
            self.now.query.equalities self.now.known }
    {
        self.variables.sets()
    }
}
