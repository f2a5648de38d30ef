// The regions of a tree's plan, in the order in which its pipes write them.
ghost use Rattle.std.specs.Prelude.{◌≡◌, [], ◌∷◌, ◌++◌, IfOk, OnOk, map, reverse};
ghost use Rattle.transfer_plan.specs.Layouts.{backward_all, backward_own, forward_all, forward_own};
ghost use Rattle.transfer_plan.specs.TransferPlan.{members, regions};
ghost use Rattle.transfer_plan.specs.declared.region.Region.TheVariants as region;

use crate::layout::{children, has_keys};
use crate::region::Region;
use join_graph::Tree;
use rpt_base::Memory;
use std::alloc::Global;

/// The regions of a tree's plan in order, given its list from the end and from the front.
pub(crate) fn regions(
    alloc: Global,
    tree: &Tree,
    keyed: bool,
    upward: &[u32],
    downward: &[u32],
) -> Result<Vec<Region>, Memory>
    requires upward { upward.now ≡ reverse (members tree.now.root tree.now.links) }
    requires downward { downward.now ≡ members tree.now.root tree.now.links }
    ensures { IfOk result (λ all. all.items ≡ regions tree.now.root tree.now.links keyed) }
{
    let mut regions = Vec::new(alloc);
    add_upward(&mut regions, tree, keyed, upward)?;
    add_downward(alloc, &mut regions, tree, keyed, downward)?;
    Ok(regions)
}

// Adds the regions that the forward pipes of these relations write.
fn add_upward(
    regions: &mut Vec<Region>,
    tree: &Tree,
    keyed: bool,
    members: &[u32],
) -> Result<(), Memory>
    ensures { OnOk result (regions.new.items
        ≡ regions.old.items ++ forward_all tree.now keyed members.now) }
{
    for relation in members {
        add_forward(regions, tree, keyed, *relation)?;
    }
    Ok(())
}

// Adds the regions that the backward pipes of these relations write.
fn add_downward(
    alloc: Global,
    regions: &mut Vec<Region>,
    tree: &Tree,
    keyed: bool,
    members: &[u32],
) -> Result<(), Memory>
    ensures { OnOk result (regions.new.items
        ≡ regions.old.items ++ backward_all tree.now keyed members.now) }
{
    for relation in members {
        add_backward(alloc, regions, tree, keyed, *relation)?;
    }
    Ok(())
}

// Adds the regions that a relation's forward pipe writes.
fn add_forward(
    regions: &mut Vec<Region>,
    tree: &Tree,
    keyed: bool,
    relation: u32,
) -> Result<(), Memory>
    ensures { OnOk result (regions.new.items
        ≡ regions.old.items ++ forward_own tree.now keyed relation) }
{
    regions.push(Region::Forward(relation))?;
    if !has_keys(tree, keyed, relation) {
        return Ok(());
    }
    regions.push(Region::ForwardKeys(relation))?;
    Ok(())
}

// Adds the regions that a relation's backward pipe writes.
fn add_backward(
    alloc: Global,
    regions: &mut Vec<Region>,
    tree: &Tree,
    keyed: bool,
    relation: u32,
) -> Result<(), Memory>
    ensures { OnOk result (regions.new.items
        ≡ regions.old.items ++ backward_own tree.now keyed relation) }
{
    regions.push(Region::Backward(relation))?;
    if !keyed {
        return Ok(());
    }
    let children = children(alloc, tree.links.as_slice(), relation)?;
    add_keys(regions, &children)
}

// Adds the regions of the keys that children read.
fn add_keys(regions: &mut Vec<Region>, children: &[u32]) -> Result<(), Memory>
    ensures { OnOk result (regions.new.items
        ≡ regions.old.items ++ map region.BackwardKeys children.now) }
{
    for child in children {
        regions.push(Region::BackwardKeys(*child))?;
    }
    Ok(())
}
