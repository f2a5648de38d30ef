// The report of a bound query.
ghost use Rattle.std.specs.Prelude.{◌≡◌, ◌<◌, All, IfOk, IfSome, length};
ghost use Rattle.std.specs.Option.{option_map};
ghost use Rattle.join_graph.specs.JoinList.{HasParents};
ghost use Rattle.plan_report.specs.Report.{AreLists, report_of};
ghost use Rattle.plan_report.specs.Run.{IsRunOf, run_counts};

use crate::lines::{put_count, put_order, put_relations, put_variables};
use crate::runs::{RunPart, put_filter, put_tuples};
use crate::trees::{put_prefixes, put_tree, put_weight};
use bound_query::Bound;
use join_graph::{Graph, Tree};
use rpt_base::Memory;
use std::alloc::Global;

/// What is told of a query. Relations are numbered from 0 in the order of FROM.
#[derive(Clone, Copy)]
pub struct ReportInput<'a> {
    /// The query.
    pub bound: &'a Bound,
    /// The graph of its relations.
    pub graph: &'a Graph,
    /// The tree that filters go along.
    pub tree: &'a Tree,
    /// The relations in the order in which they are joined, each once.
    pub order: &'a [u32],
    /// For each prefix of the order, from that of one relation on, a join list that begins with it, or none where it is unsafe.
    pub lists: &'a [Option<Tree>],
    /// What is told of a run over the query's tables, if there was one.
    pub run: Option<RunPart<'a>>,
}

/// The report, as lines that end with a line feed:
///
/// ```text
/// relations N                       how many there are
/// relation ALIAS TABLE              each relation, and its table
/// variable A.C A.C ..               each variable, by its columns
/// weight B of N                     what the tree weighs, and what a join list weighs
/// tree ROOT CHILD>PARENT ..         the tree
/// filter KIND                       of a run: bloom, exact or none
/// order A B ..                      the order
/// safe K ROOT CHILD>PARENT ..       the prefix of the first K relations, from 1, and its join list
/// unsafe K                          the same where there is none
/// prefix K rows C                   of a run: how many tuples that prefix has
/// answer rows C                     of a run: how many the last prefix has
/// ```
///
/// Of a run, a relation's line goes on with ` rows R selected S reduced D`: how many rows its table has, how many of these are selected,
/// and how many the filters leave. Names are printed as their bytes, and numbers in decimal. Want of memory is the one error.
pub fn report(alloc: Global, input: &ReportInput) -> Result<Vec<u8>, Memory>
    requires graph { input.now.graph.now ≡ input.now.bound.now.known.sets }
    requires tree { HasParents (length input.now.bound.now.known.sets)
        input.now.tree.now.root input.now.tree.now.links }
    requires order_length { length input.now.order.now ≡ length input.now.bound.now.query.table_of }
    requires order { All (λ r. r < length input.now.bound.now.query.table_of) input.now.order.now }
    requires lists_length { length input.now.lists.now ≡ length input.now.bound.now.query.table_of }
    requires lists { AreLists (length input.now.bound.now.known.sets) input.now.lists.now }
    requires run { IfSome input.now.run (IsRunOf (length input.now.bound.now.query.table_of)) }
    ensures { IfOk result (λ text. text.items ≡ report_of input.now.bound.now.query input.now.bound.now.known
        input.now.tree.now input.now.order.now input.now.lists.now (option_map run_counts input.now.run)) }
{
    let bound = input.bound;
    // Asking for the sets brings in that each relation has one, and that the variables are those of the query.
    let _sets = bound.var_sets();
    let mut text = Vec::new(alloc);
    put_count(&mut text, bound)?;
    put_relations(&mut text, bound, &input.run)?;
    put_variables(&mut text, bound)?;
    put_weight(&mut text, input.graph, input.tree)?;
    put_tree(&mut text, bound, input.tree)?;
    put_filter(&mut text, &input.run)?;
    put_order(&mut text, bound, input.order)?;
    put_prefixes(&mut text, bound, input.lists)?;
    put_tuples(&mut text, &input.run)?;
    Ok(text)
}
