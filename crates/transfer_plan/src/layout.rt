// The relations of a tree, and the numbers of its plan's regions and placements.
ghost use Rattle.std.specs.Prelude.{◌≡◌, ◌+◌, ◌*◌, ◌<◌, ◌≤◌, ◌==◌, ◌^◌, IfOk, length, reverse};
ghost use Rattle.std.specs.List.{position_or_len};
ghost use Rattle.transfer_plan.specs.Layouts.{IsLayout, child_places, parent_places, port_of};
ghost use Rattle.transfer_plan.specs.TransferPlan.{children, has_keys, is_same, link_of, members};

use crate::region::Region;
use join_graph::{Link, Tree};
use rpt_base::Memory;
use std::alloc::Global;
use transfer_core::Port;

/// What the pipes of a tree's plan are made from: the tree, the items of its relations, whether keys are passed along it, and
/// the regions in the order in which they are numbered.
#[derive(Clone, Copy)]
pub(crate) struct Layout<'a> {
    pub(crate) tree: &'a Tree,
    pub(crate) items: &'a [u32],
    pub(crate) keyed: bool,
    pub(crate) regions: &'a [Region],
}

/// The list of a tree: the root, and then the links' children in order.
pub(crate) fn members(alloc: Global, tree: &Tree) -> Result<Vec<u32>, Memory>
    ensures { IfOk result (λ list. list.items ≡ members tree.now.root tree.now.links) }
{
    let mut members = Vec::new(alloc);
    members.push(tree.root)?;
    for link in tree.links.as_slice() {
        members.push(link.child)?;
    }
    Ok(members)
}

/// The same relations from the end.
pub(crate) fn reversed(alloc: Global, members: &[u32]) -> Result<Vec<u32>, Memory>
    ensures { IfOk result (λ list. list.items ≡ reverse members.now) }
{
    Ok(members.iter().rev().copied().collect(alloc)?)
}

/// The children of a relation, in the list's order.
pub(crate) fn children(alloc: Global, links: &[Link], relation: u32) -> Result<Vec<u32>, Memory>
    ensures { IfOk result (λ list. list.items ≡ children links.now relation) }
{
    let list = links
        .iter()
        .filter(|link| link.parent == relation)
        .map(|link| link.child)
        .collect(alloc);
    Ok(list?)
}

// Whether two regions are for the same.
fn is_same(one: Region, other: Region) -> bool
    ensures { result ≡ is_same one other }
{
    match (one, other) {
        (Region::Forward(r), Region::Forward(o)) => r == o,
        (Region::ForwardKeys(r), Region::ForwardKeys(o)) => r == o,
        (Region::Backward(r), Region::Backward(o)) => r == o,
        (Region::BackwardKeys(r), Region::BackwardKeys(o)) => r == o,
        _ => false,
    }
}

// The number of a region: its place among all of them.
fn number_of(regions: &[Region], region: Region) -> u32
    requires { length regions.now < 2 ^ 32 }
    ensures { result ≡ position_or_len (is_same region) regions.now }
{
    for (place, other) in regions.iter().enumerate() {
        if is_same(region, *other) {
            return place as u32;
        }
    }
    regions.len() as u32
}

/// The place of a child's link, or the number of links.
pub(crate) fn link_of(links: &[Link], child: u32) -> usize
    ensures link { result ≡ link_of links.now child }
    ensures within { result ≤ length links.now }
{
    for (place, link) in links.iter().enumerate() {
        if link.child == child {
            return place;
        }
    }
    links.len()
}

/// Whether a relation passes its keys to a parent.
pub(crate) fn has_keys(tree: &Tree, keyed: bool, relation: u32) -> bool
    ensures { result ≡ has_keys tree.now.root tree.now.links keyed relation }
{
    keyed && relation != tree.root
}

impl Layout<'_> {
    /// The port of a region with a placement.
    pub(crate) fn port(&self, region: Region, places: u32) -> Port
        requires { IsLayout self.now }
        ensures { result ≡ port_of self.now region places }
    {
        Port {
            region: number_of(self.regions, region),
            places,
        }
    }

    /// The placement of a child's items in the regions of its link.
    pub(crate) fn child_of(&self, child: u32) -> u32
        requires { IsLayout self.now }
        ensures { result ≡ child_places self.now child }
    {
        let link = link_of(self.tree.links.as_slice(), child);
        (self.items.len() + 2 * link) as u32
    }

    /// The placement of the parent's items there.
    pub(crate) fn parent_of(&self, child: u32) -> u32
        requires { IsLayout self.now }
        ensures { result ≡ parent_places self.now child }
    {
        let link = link_of(self.tree.links.as_slice(), child);
        (self.items.len() + 2 * link + 1) as u32
    }
}
