// What a bound query is made of.
use crate::output::OutColumn;
use column_classes::Equality;
use column_table::Decl;
use predicate::Pred;
use rpt_base::{Listed, Name};
use std::marker::Model;

/// What a query says, before its variables are known.
#[derive(Drop)]
pub struct QueryParts {
    /// The name that each relation goes by, in the order of FROM.
    pub aliases: Listed<Name>,
    /// The different tables, in the order of their first use.
    pub tables: Listed<Decl>,
    /// The number of each relation's table.
    pub table_of: Vec<u32>,
    /// The condition of each relation, over the columns of its table.
    pub conditions: Listed<Pred>,
    /// The written equalities in order.
    pub equalities: Vec<Equality>,
    /// The columns of the output in order.
    pub output: Listed<OutColumn>,
}

impl Model for QueryParts {
    ghost use Rattle.bound_query.specs.Query.{Query};

    ghost Value = { Query };

    ghost use Rattle.predicate.specs.contracts.tree.Pred as condition;
    ghost use Rattle.std.specs.Coded.{codes};

    ghost coded = { Prim.hlevel (codes, condition.the_row.coded) };

    ghost view = { λ q. record {
      aliases = q.aliases;
      tables = q.tables;
      table_of = q.table_of.items;
      conditions = q.conditions;
      equalities = q.equalities.items;
      output = q.output;
    } };
}
