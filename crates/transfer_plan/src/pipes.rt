// The pipes of a tree's plan.
ghost use Rattle.std.specs.Prelude.{◌≡◌, [], ◌∷◌, ◌++◌, ◌<◌, All, IfOk, OnOk, length, map, reverse};
ghost use Rattle.transfer_plan.specs.Layouts.{IsLayout, backward_of, forward_of, keys_backward, keys_forward, members_of};
ghost use Rattle.transfer_plan.specs.Layouts.{own_ports, pipe_of, pipes_of};

use crate::layout::{Layout, children, has_keys};
use crate::region::Region;
use rpt_base::{Listed, Memory};
use std::alloc::Global;
use transfer_core::{Pipe, Port};

/// The pipes of a tree's plan in order, given its list from the end and from the front.
pub(crate) fn pipes(
    alloc: Global,
    layout: &Layout<'_>,
    upward: &[u32],
    downward: &[u32],
) -> Result<Vec<Pipe>, Memory>
    requires layout { IsLayout layout.now }
    requires upward { upward.now ≡ reverse (members_of layout.now) }
    requires downward { downward.now ≡ members_of layout.now }
    ensures { IfOk result (λ all. all.items ≡ pipes_of layout.now) }
{
    let mut pipes = Vec::new(alloc);
    add_upward(alloc, &mut pipes, layout, upward)?;
    add_downward(alloc, &mut pipes, layout, downward)?;
    Ok(pipes)
}

// Adds the forward pipes of these relations.
fn add_upward(
    alloc: Global,
    pipes: &mut Vec<Pipe>,
    layout: &Layout<'_>,
    members: &[u32],
) -> Result<(), Memory>
    requires layout { IsLayout layout.now }
    requires within { All (λ r. r < length layout.now.items.now) members.now }
    ensures { OnOk result (pipes.new.items
        ≡ pipes.old.items ++ map (forward_of layout.now) members.now) }
{
    for relation in members {
        pipes.push(layout.forward_pipe(alloc, *relation)?)?;
    }
    Ok(())
}

// Adds the backward pipes of these relations.
fn add_downward(
    alloc: Global,
    pipes: &mut Vec<Pipe>,
    layout: &Layout<'_>,
    members: &[u32],
) -> Result<(), Memory>
    requires layout { IsLayout layout.now }
    requires within { All (λ r. r < length layout.now.items.now) members.now }
    ensures { OnOk result (pipes.new.items
        ≡ pipes.old.items ++ map (backward_of layout.now) members.now) }
{
    for relation in members {
        pipes.push(layout.backward_pipe(alloc, *relation)?)?;
    }
    Ok(())
}

impl Layout<'_> {
    // A relation's forward pipe: an item passes where each child has its key; its row is put, and its key for the parent.
    fn forward_pipe(&self, alloc: Global, relation: u32) -> Result<Pipe, Memory>
        requires layout { IsLayout self.now }
        requires relation { relation < length self.now.items.now }
        ensures { IfOk result (λ pipe. pipe ≡ forward_of self.now relation) }
    {
        let reads = self.reads_forward(alloc, relation)?;
        let writes = self.own_ports(alloc, relation, Region::ForwardKeys(relation))?;
        Ok(self.pipe(relation, reads, writes))
    }

    // A relation's backward pipe: an item passes where it passed forward and the parent has its key; its row is put, and its key
    // for each child.
    fn backward_pipe(&self, alloc: Global, relation: u32) -> Result<Pipe, Memory>
        requires layout { IsLayout self.now }
        requires relation { relation < length self.now.items.now }
        ensures { IfOk result (λ pipe. pipe ≡ backward_of self.now relation) }
    {
        let reads = self.own_ports(alloc, relation, Region::BackwardKeys(relation))?;
        let writes = self.writes_backward(alloc, relation)?;
        Ok(self.pipe(relation, reads, writes))
    }

    // The ports of a relation's rows that pass forward, and of its keys in a region of its link, if it has a parent.
    fn own_ports(&self, alloc: Global, relation: u32, keys: Region) -> Result<Vec<Port>, Memory>
        requires layout { IsLayout self.now }
        ensures { IfOk result (λ ports. ports.items ≡ own_ports self.now relation keys) }
    {
        let mut ports = Vec::new(alloc);
        ports.push(self.port(Region::Forward(relation), relation))?;
        if !has_keys(self.tree, self.keyed, relation) {
            return Ok(ports);
        }
        ports.push(self.port(keys, self.child_of(relation)))?;
        Ok(ports)
    }

    // The ports of the keys that a relation's children pass forward.
    fn reads_forward(&self, alloc: Global, relation: u32) -> Result<Vec<Port>, Memory>
        requires layout { IsLayout self.now }
        ensures { IfOk result (λ ports. ports.items ≡ (forward_of self.now relation).reads) }
    {
        let mut ports = Vec::new(alloc);
        if !self.keyed {
            return Ok(ports);
        }
        let children = children(alloc, self.tree.links.as_slice(), relation)?;
        self.add_keys_forward(&mut ports, &children)?;
        Ok(ports)
    }

    // The ports of a relation's rows that pass backward, and of the keys that its children read.
    fn writes_backward(&self, alloc: Global, relation: u32) -> Result<Vec<Port>, Memory>
        requires layout { IsLayout self.now }
        ensures { IfOk result (λ ports. ports.items ≡ (backward_of self.now relation).writes) }
    {
        let mut ports = Vec::new(alloc);
        ports.push(self.port(Region::Backward(relation), relation))?;
        if !self.keyed {
            return Ok(ports);
        }
        let children = children(alloc, self.tree.links.as_slice(), relation)?;
        self.add_keys_backward(&mut ports, &children)?;
        Ok(ports)
    }

    // The pipe of a relation's items with these ports.
    fn pipe(&self, relation: u32, reads: Vec<Port>, writes: Vec<Port>) -> Pipe
        requires relation { relation < length self.now.items.now }
        ensures { result ≡ pipe_of self.now relation reads.items writes.items }
    {
        Pipe {
            items: self.items[relation as usize],
            reads: Listed::from_vec(reads),
            writes: Listed::from_vec(writes),
        }
    }

    // Adds the ports of the keys that children pass forward.
    fn add_keys_forward(&self, ports: &mut Vec<Port>, children: &[u32]) -> Result<(), Memory>
        requires layout { IsLayout self.now }
        ensures { OnOk result (ports.new.items
            ≡ ports.old.items ++ map (keys_forward self.now) children.now) }
    {
        for child in children {
            let keys = self.port(Region::ForwardKeys(*child), self.parent_of(*child));
            ports.push(keys)?;
        }
        Ok(())
    }

    // Adds the ports of the keys that children read backward.
    fn add_keys_backward(&self, ports: &mut Vec<Port>, children: &[u32]) -> Result<(), Memory>
        requires layout { IsLayout self.now }
        ensures { OnOk result (ports.new.items
            ≡ ports.old.items ++ map (keys_backward self.now) children.now) }
    {
        for child in children {
            let keys = self.port(Region::BackwardKeys(*child), self.parent_of(*child));
            ports.push(keys)?;
        }
        Ok(())
    }
}
