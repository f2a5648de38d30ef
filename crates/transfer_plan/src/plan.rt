// The plan of a tree.
ghost use Rattle.std.specs.Prelude.{◌≡◌, ◌∷◌, [], ◌++◌, ℕ, IfOk, map, slice_index};
ghost use Rattle.transfer_core.specs.Plans.{IsValid, shape_of};
ghost use Rattle.transfer_plan.specs.TransferPlan.{AreParts, edge_places, row_words, transfer_plan, words_of_region};

use crate::layout::{Layout, link_of, members, reversed};
use crate::pipes::pipes;
use crate::region::Region;
use crate::regions::regions;
use join_graph::{Link, Tree};
use key_codes::Placement;
use rpt_base::{Listed, Memory};
use std::alloc::Global;
use transfer_core::Plan;

/// An edge of the tree: the placements of its child's and of its parent's items by the variables that both have, and how many
/// words the forward and the backward key region of the edge have.
#[derive(Drop)]
pub struct Edge<P> {
    pub child: P,
    pub parent: P,
    pub forward_words: u32,
    pub backward_words: u32,
}

/// The pipe plan of a tree of at most 64 relations. `items` has the number of items of each relation, and `rows` a placement for
/// each that gives an item the bit of its number. `edges` has one for each link, in their order, or none at all: then no keys are
/// passed. A morsel has 64 to 65,536 items, a multiple of 64.
///
/// First come the forward pipes, from the end of the tree's list to the root, and then the backward pipes, from the root. Regions
/// are numbered in the order in which they are written. The placements are those of the rows, by relation, and then those of each
/// edge's child and parent. The call fails only without memory.
pub fn plan_of<P: Placement + Drop>(
    alloc: Global,
    tree: &Tree,
    items: &[u32],
    edges: Vec<Edge<P>>,
    rows: Vec<P>,
    morsel: u32,
) -> Result<Plan<P>, Memory>
    requires { AreParts P.seen tree.now items.now edges.items rows.items morsel }
    ensures plan { IfOk result (λ plan. plan
        ≡ transfer_plan tree.now items.now edges.items rows.items morsel) }
    ensures valid { IfOk result (λ plan. IsValid (shape_of P.seen plan)) }
{
    let keyed = !edges.is_empty();
    let downward = members(alloc, tree)?;
    let upward = reversed(alloc, &downward)?;
    let regions = regions(alloc, tree, keyed, &upward, &downward)?;
    let layout = Layout {
        tree,
        items,
        keyed,
        regions: &regions,
    };
    let pipes = pipes(alloc, &layout, &upward, &downward)?;
    let words = words(alloc, tree.links.as_slice(), items, &edges, &regions)?;
    let places = places(rows, edges)?;
    Ok(Plan {
        morsel,
        words: Listed::from_vec(words),
        places: Listed::from_vec(places),
        pipes: Listed::from_vec(pipes),
    })
}

// The words of each of these regions.
fn words<P>(
    alloc: Global,
    links: &[Link],
    items: &[u32],
    edges: &[Edge<P>],
    regions: &[Region],
) -> Result<Vec<u32>, Memory>
    ensures { IfOk result (λ all. all.items
        ≡ map (words_of_region links.now items.now edges.now) regions.now) }
{
    let mut words = Vec::new(alloc);
    for region in regions {
        let count = words_of(links, items, edges, *region);
        words.push(count)?;
    }
    Ok(words)
}

// The words of a region.
fn words_of<P>(links: &[Link], items: &[u32], edges: &[Edge<P>], region: Region) -> u32
    ensures { result ≡ words_of_region links.now items.now edges.now region }
{
    match region {
        Region::Forward(relation) | Region::Backward(relation) => row_words(items, relation),
        Region::ForwardKeys(child) => match edges.get(link_of(links, child)) {
            Some(edge) => edge.forward_words,
            None => 0,
        },
        Region::BackwardKeys(child) => match edges.get(link_of(links, child)) {
            Some(edge) => edge.backward_words,
            None => 0,
        },
    }
}

// The words of a region of a relation's rows: one for every 64 items, and at least one.
fn row_words(items: &[u32], relation: u32) -> u32
    ensures { result ≡ row_words (slice_index items.now relation) }
{
    match items.get(relation as usize) {
        Some(count) => count.div_ceil(64).max(1),
        None => 1,
    }
}

// All placements: those of the rows, and then of each edge's child and parent.
fn places<P: Drop>(rows: Vec<P>, edges: Vec<Edge<P>>) -> Result<Vec<P>, Memory>
    ensures { IfOk result (λ places. places.items ≡ rows.items ++ edge_places edges.items) }
{
    let mut places = rows;
    for edge in edges {
        let Edge {
            child,
            parent,
            forward_words: _,
            backward_words: _,
        } = edge;
        places.push(child)?;
        places.push(parent)?;
    }
    Ok(places)
}
