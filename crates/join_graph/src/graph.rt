// The graph of the relations that share variables.
ghost use Rattle.std.specs.Prelude.{◌≡◌, ◌<◌, ◌≤◌, ◌↔◌, IfOk, length, map};
ghost use Rattle.rpt_base.specs.declared.limits.TheConstants.{MAX_COLUMNS};
ghost use Rattle.join_graph.specs.JoinList.{HasParents, IsAll, IsGraph, IsJoinList};
ghost use Rattle.join_graph.specs.Weights.{needed_of, shared_of, total, weight_of};

use crate::shared::{copy_sets, count_met, count_shared, list_shared};
use crate::tree::Tree;
use rpt_base::{Memory, RelSet};
use std::alloc::Global;
use std::marker::Model;

/// The relations of a query and the variables of each, which contracts see as a list of lists. Relations are numbered
/// from 0. There are 1 to `MAX_RELATIONS` of them, and each has at most `MAX_COLUMNS` variables, which rise strictly.
#[derive(Drop)]
pub struct Graph {
    var_sets: Vec<Vec<u32>>,
}

impl Model for Graph {
    ghost use Rattle.std.specs.Prelude.{List, ℕ, map};
    ghost use Rattle.join_graph.specs.JoinList.{IsGraph};

    ghost Value = { List (List ℕ) };

    ghost view = { λ g. map (λ s. s.items) g.var_sets.items };

    ghost invariant = { λ g. IsGraph (map (λ s. s.items) g.var_sets.items) };
}

impl Graph {
    /// The graph of relations with these variables, which are copied.
    pub fn of(alloc: Global, var_sets: &[Vec<u32>]) -> Result<Graph, Memory>
        requires { IsGraph (map (λ s. s.items) var_sets.now) }
        ensures { IfOk result (λ g. g ≡ map (λ s. s.items) var_sets.now) }
    {
        Ok(Graph {
            var_sets: copy_sets(alloc, var_sets)?,
        })
    }

    /// How many relations there are.
    pub fn relations(&self) -> u32
        ensures count { result ≡ length self.now }
        ensures graph { IsGraph self.now }
    {
        self.var_sets.len() as u32
    }

    /// The set of all relations.
    pub fn all(&self) -> RelSet
        ensures all { IsAll (length self.now) result }
        ensures graph { IsGraph self.now }
    {
        RelSet((1u32 << self.relations()) - 1)
    }

    /// The weight of a pair: how many variables the two relations share. It is the same either way round.
    pub fn weight(&self, i: u32, j: u32) -> u32
        requires child { i < length self.now }
        requires parent { j < length self.now }
        ensures weight { result ≡ weight_of self.now i j }
        ensures bounded { result ≤ MAX_COLUMNS }
    {
        count_shared(&self.var_sets[i as usize], &self.var_sets[j as usize]) as u32
    }

    /// The variables that two relations share, rising.
    pub fn shared(&self, alloc: Global, i: u32, j: u32) -> Result<Vec<u32>, Memory>
        requires child { i < length self.now }
        requires parent { j < length self.now }
        ensures { IfOk result (λ variables. variables.items ≡ shared_of self.now i j) }
    {
        list_shared(
            alloc,
            &self.var_sets[i as usize],
            &self.var_sets[j as usize],
        )
    }

    /// What a join list weighs: over the variables, the sum of the number of relations that have it, less 1.
    pub fn needed(&self) -> u32
        ensures { result ≡ needed_of self.now }
    {
        // A variable counts once for each relation that has it after the first one.
        let mut sum = 0u32;
        for i in 0..self.var_sets.len() {
            let met = count_met(&self.var_sets[..i], &self.var_sets[i]);
            sum += met as u32;
        }
        sum
    }

    /// The weight of a tree: the sum of its links' weights. It is at most `needed`, and equal to it exactly where the tree
    /// is a join list.
    pub fn tree_weight(&self, tree: &Tree) -> u32
        requires { HasParents (length self.now) tree.now.root tree.now.links }
        ensures weight { result ≡ total (weight_of self.now) tree.now.links }
        ensures bounded { result ≤ needed_of self.now }
        ensures joins { (result ≡ needed_of self.now)
            ↔ IsJoinList self.now tree.now.root tree.now.links }
    {
        // Reading the sets brings in what every graph keeps to, and with it a bound for the sum.
        let _sets = &self.var_sets;
        let mut sum = 0u32;
        for link in tree.links.as_slice() {
            sum += self.weight(link.child, link.parent);
        }
        sum
    }
}
