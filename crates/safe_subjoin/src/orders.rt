// The prefixes of a join order.
ghost use Rattle.std.specs.Prelude.{◌≡◌, ℕ, ◌<◌, ◌≤◌, ◌==◌, ◌||◌, length, IfOk, MatchResult};
ghost use Rattle.std.specs.List.{All};
ghost use Rattle.join_graph.specs.JoinList.{IsAcyclic, IsSetOf, set_of};
ghost use Rattle.safe_subjoin.specs.SafeOrder.{AreListsOfPrefixes, AreSafeLists, IsListOf, IsOrderRefused, first_of};
ghost use Rattle.rpt_base.specs.Orders.{IsOrder};

use crate::errors::{OrderError, SetError};
use crate::sets::safe_set;
use join_graph::{Graph, Tree};
use rpt_base::{Memory, RelSet};
use std::alloc::Global;

// The set with one more relation.
fn with_member(set: RelSet, relation: u32) -> RelSet
    requires { relation < 32 }
    ensures { (q : ℕ) → set_of result q ≡ ((q == relation) || set_of set q) }
{
    RelSet(set.0 | (1u32 << relation))
}

// The set of the first relations of an order.
fn prefix_set(order: &[u32], prefix: u32) -> RelSet
    requires small { All (λ r. r < 32) order.now }
    requires prefix { prefix ≤ length order.now }
    ensures { (q : ℕ) → set_of result q ≡ first_of order.now prefix q }
{
    let mut set = RelSet(0);
    for i in 0..prefix as usize {
        set = with_member(set, order[i]);
    }
    set
}

/// Join lists for a join order, prefix after prefix: the list in place k, from 0, begins with the order's first k + 1
/// relations, and is what `safe_set` gives for them. The graph has a join list, and the order has each of its relations
/// once, numbered from 0.
///
/// `Unsafe` comes exactly where no join list begins with some prefix, and tells the least of them, counted from 1.
pub fn safe_order(alloc: Global, graph: &Graph, order: &[u32]) -> Result<Vec<Tree>, OrderError>
    requires acyclic { IsAcyclic graph.now }
    requires order { IsOrder (length graph.now) order.now }
    ensures { MatchResult result (λ ts. AreSafeLists graph.now order.now ts.items)
        (λ e. IsOrderRefused graph.now order.now e) }
{
    let mut lists: Vec<Tree> = Vec::new(alloc);
    for i in 0..graph.relations() {
        let prefix = i + 1;
        let tree = match safe_set(alloc, graph, prefix_set(order, prefix)) {
            Ok(tree) => tree,
            Err(SetError::Unsafe) => return Err(OrderError::Unsafe { prefix }),
            Err(SetError::Memory) => return Err(OrderError::Memory),
        };
        match lists.push(tree) {
            Ok(()) => {}
            Err(_) => return Err(OrderError::Memory),
        }
    }
    Ok(lists)
}

// The join list that `safe_set` gives for a set, or `None` where the set is unsafe.
fn safe_list(alloc: Global, graph: &Graph, set: RelSet) -> Result<Option<Tree>, Memory>
    requires acyclic { IsAcyclic graph.now }
    requires set { IsSetOf (length graph.now) set }
    ensures { IfOk result (λ list. IsListOf graph.now (set_of set) list) }
{
    match safe_set(alloc, graph, set) {
        Ok(tree) => Ok(Some(tree)),
        Err(SetError::Unsafe) => Ok(None),
        Err(SetError::Memory) => Err(Memory),
    }
}

/// The same where some prefixes may be unsafe: in place k, from 0, is the join list that `safe_set` gives for the order's
/// first k + 1 relations, and `None` exactly where no join list begins with them.
pub fn safe_lists(alloc: Global, graph: &Graph, order: &[u32]) -> Result<Vec<Option<Tree>>, Memory>
    requires acyclic { IsAcyclic graph.now }
    requires order { IsOrder (length graph.now) order.now }
    ensures { IfOk result (λ lists. AreListsOfPrefixes graph.now order.now lists.items) }
{
    let mut lists: Vec<Option<Tree>> = Vec::new(alloc);
    for i in 0..graph.relations() {
        let list = safe_list(alloc, graph, prefix_set(order, i + 1))?;
        match lists.push(list) {
            Ok(()) => {}
            Err(_) => return Err(Memory),
        }
    }
    Ok(lists)
}
