// Whether a query can be answered along an order.
ghost use Rattle.std.specs.Prelude.{◌≡◌, ℕ, Bool, IfErr, IfOk, IfSome, List, Option, length};
ghost use Rattle.join_graph.specs.JoinList.{IsAcyclic};
ghost use Rattle.rpt_base.specs.Orders.{IsOrder};
ghost use Rattle.rpt_engine.specs.Prepared.{IsAllowed, IsUnprepared};

use crate::errors::PrepareError;
use crate::options::Options;
use bound_query::Bound;
use join_graph::Graph;
use largest_root::{TreeError, join_tree};
use rpt_base::Listed;
use rpt_base::limits::MAX_RELATIONS;
use safe_subjoin::{OrderError, safe_order};
use std::alloc::Global;

/// A query that can be answered along a join list.
#[derive(Drop)]
pub struct Prepared {
    /// The query's relations, and the variables that they share.
    pub graph: Graph,
}

/// Prepares a query. It is Ok exactly where the query has a join list, and an order that is given is accepted or forced: each of its
/// prefixes is then a safe set. An order that is given has each relation once.
pub fn prepare(alloc: Global, bound: &Bound, options: &Options) -> Result<Prepared, PrepareError>
    requires order { IfSome options.now.order (λ order.
        IsOrder (length bound.now.known.sets) order) }
    ensures graph { IfOk result (λ p. p.graph ≡ bound.now.known.sets) }
    ensures acyclic { IfOk result (λ p. IsAcyclic bound.now.known.sets) }
    ensures allowed { IfOk result (λ p. IsAllowed bound.now.known.sets options.now.order options.now.force) }
    ensures refused { IfErr result (λ e. IsUnprepared bound.now.known.sets options.now.order options.now.force e) }
{
    let graph = Graph::of(alloc, bound.var_sets())?;
    if let Err(error) = find_tree(alloc, &graph) {
        return Err(error);
    }
    let prepared = Prepared { graph };
    if let Err(error) = allow(alloc, &prepared, &options.order, options.force) {
        return Err(error);
    }
    Ok(prepared)
}

// Finds whether there is a join list. The sizes play no part in that.
fn find_tree(alloc: Global, graph: &Graph) -> Result<(), PrepareError>
    ensures acyclic { IfOk result (λ _. IsAcyclic graph.now) }
    ensures refused { IfErr result (λ e. (order : Option (List ℕ)) (force : Bool)
        → IsUnprepared graph.now order force e) }
{
    let sizes = [0; MAX_RELATIONS as usize];
    match join_tree(alloc, graph, &sizes[..graph.relations() as usize]) {
        Ok(_) => Ok(()),
        Err(TreeError::Cyclic { best, needed }) => Err(PrepareError::Cyclic { best, needed }),
        Err(TreeError::Memory) => Err(PrepareError::Memory),
    }
}

/// Finds whether a prepared query can be answered along an order that is given: `Ok` exactly where there is none, or it is accepted or
/// forced. It has each relation once. `UnsafeOrder` tells the least of its prefixes that isn't a safe set.
pub fn allow(
    alloc: Global,
    prepared: &Prepared,
    order: &Option<Listed<u32>>,
    force: bool,
) -> Result<(), PrepareError>
    requires acyclic { IsAcyclic prepared.now.graph }
    requires order { IfSome order.now (λ order. IsOrder (length prepared.now.graph) order) }
    ensures allowed { IfOk result (λ _. IsAllowed prepared.now.graph order.now force) }
    ensures refused { IfErr result (λ e. IsUnprepared prepared.now.graph order.now force e) }
{
    let Some(order) = order else {
        return Ok(());
    };
    if force {
        return Ok(());
    }
    let _lists = match safe_order(alloc, &prepared.graph, order.as_slice()) {
        Ok(lists) => lists,
        Err(OrderError::Unsafe { prefix }) => return Err(PrepareError::UnsafeOrder { prefix }),
        Err(OrderError::Memory) => return Err(PrepareError::Memory),
    };
    Ok(())
}
