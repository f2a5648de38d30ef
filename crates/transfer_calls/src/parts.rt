// Whether a plan can be made of parts, and the plan.
ghost use Rattle.std.specs.Prelude.{◌≡◌, ◌∷◌, ℕ, ◌<◌, ◌≤◌, [], EachIndex, IfOk, IsTrue, length, map, slice_index, true};
ghost use Rattle.exact_filter.specs.Exact.{row_places};
ghost use Rattle.join_graph.specs.JoinList.{Extends, HasParents, listed_by};
ghost use Rattle.rpt_base.specs.Lists.{has};
ghost use Rattle.rpt_engine.specs.Places.{places_of};
ghost use Rattle.transfer_core.specs.Plans.{IsValid, shape_of};
ghost use Rattle.transfer_plan.specs.Kept.{CanTell, item_count, sealed_run};
ghost use Rattle.transfer_plan.specs.TransferPlan.{AreEdges, AreParts, ServesLink, seen_edge};

use case_text::CaseError;
use exact_filter::RowPlaces;
use join_graph::{Link, Tree};
use key_codes::Placement;
use rpt_base::limits::is_morsel;
use rpt_engine::AnyPlace;
use std::alloc::Global;
use transfer_core::Plan;
use transfer_plan::{Edge, plan_of};

/// The plan of a tree, if one can be made of these parts.
pub fn planned(
    alloc: Global,
    tree: &Tree,
    items: &[u32],
    edges: Vec<Edge<AnyPlace>>,
    morsel: u32,
) -> Result<Plan<AnyPlace>, CaseError>
    ensures valid { IfOk result (λ plan. IsValid (shape_of places_of plan)) }
    ensures few { IfOk result (λ _. length items.now ≤ 64) }
    ensures tells { IfOk result (λ plan. EachIndex items.now
        (CanTell (sealed_run (shape_of places_of plan)))) }
    ensures items { IfOk result (λ plan. EachIndex items.now (λ r.
        item_count (sealed_run (shape_of places_of plan)) r ≡ slice_index items.now r)) }
{
    let rows = row_places(alloc, items)?;
    check_parts(alloc, tree, items, &edges, &rows, morsel)?;
    let plan = plan_of(alloc, tree, items, edges, rows, morsel)?;
    Ok(plan)
}

// Finds that a plan can be made of parts, where each relation's items have their own places.
fn check_parts(
    alloc: Global,
    tree: &Tree,
    items: &[u32],
    edges: &[Edge<AnyPlace>],
    rows: &[AnyPlace],
    morsel: u32,
) -> Result<(), CaseError>
    requires { map places_of rows.now ≡ map row_places items.now }
    ensures { IfOk result (λ _. AreParts places_of tree.now items.now edges.now rows.now morsel) }
{
    if items.len() > 64 {
        return Err(CaseError::Range);
    }
    check_tree(alloc, items.len() as u32, tree)?;
    if is_morsel(morsel) && are_edges(tree.links.as_slice(), items, edges) {
        return Ok(());
    }
    Err(CaseError::Range)
}

// Finds that a tree lists each of so many relations, and each but the root behind its parent.
fn check_tree(alloc: Global, relations: u32, tree: &Tree) -> Result<(), CaseError>
    ensures { IfOk result (λ _. HasParents relations tree.now.root tree.now.links) }
{
    let mut root = Vec::new(alloc);
    root.insert(0, tree.root)?;
    let listed = listed_by(relations, root, tree.links.as_slice())?;
    if tree.root >= relations || !has_all(relations, &listed) {
        return Err(CaseError::Range);
    }
    Ok(())
}

// What is listed once the links are, the last one first.
fn listed_by(relations: u32, listed: Vec<u32>, links: &[Link]) -> Result<Vec<u32>, CaseError>
    ensures extends { IfOk result (λ _. Extends relations listed.items links.now) }
    ensures listed { IfOk result (λ all. all.items ≡ listed_by listed.items links.now) }
{
    let [link, rest @ ..] = links else {
        return Ok(listed);
    };
    if link.child >= relations || has(&listed, link.child) || !has(&listed, link.parent) {
        return Err(CaseError::Range);
    }
    let mut more = listed;
    more.insert(0, link.child)?;
    listed_by(relations, more, rest)
}

fn has(listed: &[u32], relation: u32) -> bool
    ensures { result ≡ has relation listed.now }
{
    listed.iter().any(|other| relation == *other)
}

fn has_all(relations: u32, listed: &[u32]) -> bool
    ensures { IsTrue result → (r : ℕ) → r < relations → has r listed.now ≡ true }
{
    for relation in 0..relations {
        if !has(listed, relation) {
            return false;
        }
    }
    true
}

// Whether there are no edges, or one for each link that serves it.
fn are_edges(links: &[Link], items: &[u32], edges: &[Edge<AnyPlace>]) -> bool
    ensures { IsTrue result → AreEdges places_of links.now items.now edges.now }
{
    if !edges.is_empty() && edges.len() != links.len() {
        return false;
    }
    for place in 0..edges.len() {
        if !serves(items, links[place], &edges[place]) {
            return false;
        }
    }
    true
}

fn serves(items: &[u32], link: Link, edge: &Edge<AnyPlace>) -> bool
    ensures { IsTrue result → ServesLink items.now link (seen_edge places_of edge.now) }
{
    has_items(&edge.child, items, link.child)
        && has_items(&edge.parent, items, link.parent)
        && has_words(edge, edge.forward_words)
        && has_words(edge, edge.backward_words)
}

fn has_items(places: &AnyPlace, items: &[u32], relation: u32) -> bool
    ensures { IsTrue result → length (places_of places.now).numbers
        ≡ slice_index items.now relation }
{
    match items.get(relation as usize) {
        Some(count) => places.items() == *count,
        None => false,
    }
}

fn has_words(edge: &Edge<AnyPlace>, words: u32) -> bool
    ensures some { IsTrue result → 1 ≤ words }
    ensures child { IsTrue result → (places_of edge.now.child).least ≤ words }
    ensures parent { IsTrue result → (places_of edge.now.parent).least ≤ words }
{
    words >= 1 && edge.child.least_words() <= words && edge.parent.least_words() <= words
}

// The places of each relation's items by themselves.
fn row_places(alloc: Global, items: &[u32]) -> Result<Vec<AnyPlace>, CaseError>
    ensures { IfOk result (λ rows. map places_of rows.items ≡ map row_places items.now) }
{
    let mut rows = Vec::new(alloc);
    for count in items {
        rows.push(AnyPlace::Rows(RowPlaces::new(*count)))?;
    }
    Ok(rows)
}
