ghost use Rattle.std.specs.Prelude.{◌≡◌, ◌↔◌, ◌<◌, IsTrue, List, [], ◌∷◌, ◌++◌, length, replicate, slice_index_or, slice_set, IfOk, OnOk, OnErr};
ghost use Rattle.tb_graph.specs.Walk.{Reaches, IsAcyclic};
ghost use Rattle.tb_graph.specs.Marks.{AreMarks};
ghost use Rattle.tb_graph.specs.Blocked.{is_blocked, AreBlocking};

use crate::acyclic::is_acyclic;
use crate::blocked::{blocked_nodes, blocking_nodes};
use crate::search::reached;
use std::alloc::{AllocError, Global};
use std::marker::Model;
use tb_values::Items;

/// Links between the nodes below a number. A contract sees the list of each node's targets, which are nodes.
#[derive(Drop)]
pub struct Links {
    targets: Vec<Items<usize>>,
}

impl Model for Links {
    ghost use Rattle.tb_graph.specs.Walk.{Graph, IsWellFormed};

    ghost Value = { Graph };

    ghost view = { λ s. s.targets.items };

    ghost invariant = { λ s. IsWellFormed s.targets.items };
}

impl Links {
    /// So many nodes, without links.
    pub fn new(alloc: Global, nodes: usize) -> Result<Links, AllocError>
        ensures { IfOk result (λ g. g ≡ replicate nodes []) }
    {
        let mut targets = Vec::new(alloc);
        for _ in 0..nodes {
            targets.push(Items::new(alloc))?;
        }
        Ok(Links { targets })
    }

    /// How many nodes there are.
    pub fn nodes(&self) -> usize
        ensures { result ≡ length self.now }
    {
        self.targets.len()
    }

    /// Adds a link, also one that is there already. Without memory nothing changes.
    pub fn add(&mut self, from: usize, to: usize) -> Result<(), AllocError>
        requires from { from < length self.old }
        requires to { to < length self.old }
        ensures ok { OnOk result
            (self.new ≡ slice_set self.old from (slice_index_or self.old from [] ++ to ∷ [])) }
        ensures err { OnErr result (self.new ≡ self.old) }
    {
        self.targets[from].push(to)
    }

    /// Whether a walk of one link or more leads from one node to another.
    pub fn reaches(&self, from: usize, to: usize) -> Result<bool, AllocError>
        requires from { from < length self.now }
        requires to { to < length self.now }
        ensures { IfOk result (λ answer. IsTrue answer ↔ Reaches self.now from to) }
    {
        let marks = reached(self.allocator(), self.targets.as_slice(), from)?;
        Ok(marks[to])
    }

    /// Whether no walk leads from a node to itself.
    pub fn acyclic(&self) -> Result<bool, AllocError>
        ensures { IfOk result (λ answer. IsTrue answer ↔ IsAcyclic self.now) }
    {
        is_acyclic(self.allocator(), self.targets.as_slice())
    }

    /// Which nodes are open and linked to an open one. A node past the end of `open_nodes` is not open.
    pub fn blocked(&self, open_nodes: &[bool]) -> Result<Vec<bool>, AllocError>
        ensures { IfOk result
            (λ marks. AreMarks (length self.now) (is_blocked self.now open_nodes.now) marks.items) }
    {
        blocked_nodes(self.allocator(), self.targets.as_slice(), open_nodes)
    }

    /// Which nodes are open and have another open one linked to them. A node past the end of `open_nodes` is not open.
    pub fn blocking(&self, open_nodes: &[bool]) -> Result<Vec<bool>, AllocError>
        ensures { IfOk result (λ marks. AreBlocking self.now open_nodes.now marks.items) }
    {
        blocking_nodes(self.allocator(), self.targets.as_slice(), open_nodes)
    }

    fn allocator(&self) -> Global {
        *self.targets.allocator()
    }
}

/// The nodes that a node links to.
pub(crate) fn targets_of(targets: &[Items<usize>], node: usize) -> &[usize]
    requires { node < length targets.now }
    ensures { result.now ≡ slice_index_or targets.now node [] }
{
    targets[node].as_slice()
}
