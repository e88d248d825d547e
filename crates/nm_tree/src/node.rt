// The nodes of the tree, which nothing else can make or look into.
ghost use Rattle.std.specs.Prelude.{◌≡◌, ◌+◌, ◌<◌, ◌≤◌, IfOk, MatchBool, MatchOption, length, if◌then◌else◌, is_some};
ghost use Rattle.nm_tree.specs.Depth.{depth_of};
ghost use Rattle.nm_tree.specs.Pairs.{IsRising};
ghost use Rattle.nm_tree.specs.Sight.{DifferByAtMost, IsFork, IsShallow, bare, fork_of};

use nm_base::{NoMemory, Steps};
use std::alloc::Global;
use std::marker::Model;
use std::sync::Arc;
use std::sync::ledger::Ledger;

/// A part of a tree, which is empty or has a node at its top. A contract sees its pairs in order,
/// its height, and whether its two sides are equally high.
#[cycle(tree)]
#[derive(Drop)]
pub(crate) struct Branch<K: Ord, V> {
    // It stands beside the pointer, so that no node is opened to learn it.
    height: u8,
    node: Option<Arc<Node<K, V>>>,
}

#[cycle(tree)]
#[derive(Drop)]
struct Node<K: Ord, V> {
    left: Branch<K, V>,
    pair: Arc<(K, V)>,
    right: Branch<K, V>,
}

impl<K: Ord, V> Model for Branch<K, V> {
    ghost use Rattle.std.specs.Prelude.{length};
    ghost use Rattle.nm_tree.specs.Sight.{Sight};

    ghost Value = { Sight K V };

    ghost use Rattle.nm_tree.specs.Node.{sight_of, IsBranch};

    ghost view = { λ b. sight_of b.height b.node };

    ghost invariant = { λ b. IsBranch K.cmp b.height b.node };

    ghost size = { λ b. length b.pairs };

    ghost use Rattle.std.proofs.Common.{arith, length-append};

    ghost size_decreases = { λ a h. Prim.grind (arith, length-append) };
}

/// What a node holds: the pairs below its own, its own, and those above.
pub(crate) struct Fork<'a, K: Ord, V> {
    pub(crate) left: &'a Branch<K, V>,
    pub(crate) pair: &'a Arc<(K, V)>,
    pub(crate) right: &'a Branch<K, V>,
}

impl<K: Ord + Drop, V: Drop> Branch<K, V> {
    /// A branch with no node.
    pub(crate) fn empty() -> Branch<K, V>
        ensures { result ≡ bare }
    {
        Branch {
            height: 0,
            node: None,
        }
    }

    /// How many nodes stand above one another at most.
    pub(crate) fn height(&self) -> u8
        ensures height { result ≡ self.now.height }
        ensures shallow { IsShallow self.now }
    {
        self.height
    }

    /// Reads what a branch keeps, for the proof of a caller.
    pub(crate) fn read_kept(&self)
        ensures rising { IsRising K.cmp self.now.pairs }
        ensures depth { self.now.height ≤ depth_of (length self.now.pairs) }
    {
        let _height = self.height();
        let _node = &self.node;
    }

    /// Whether the branch has no node.
    pub(crate) fn is_empty(&self) -> bool
        ensures { MatchBool result (self.now ≡ bare) (0 < self.now.height) }
    {
        self.node.is_none()
    }

    /// The same branch, with the same node.
    pub(crate) fn share(&self) -> Result<Branch<K, V>, NoMemory>
        ensures { IfOk result (λ branch. branch ≡ self.now) }
    {
        let node = match &self.node {
            Some(node) => Some(Arc::try_clone(node)?),
            None => None,
        };
        Ok(Branch {
            height: self.height,
            node,
        })
    }

    /// Looks into the node, which is one step. An empty branch has none, and takes no step.
    pub(crate) fn open<L: Ledger>(&self, steps: &mut Steps<L>) -> Option<Fork<'_, K, V>>
        ensures fork { MatchOption result (self.now ≡ bare) (λ fork. self.now ≡ fork_of fork.left.now fork.pair.now.value fork.right.now) }
        ensures kept { MatchOption result (self.now ≡ bare) (λ fork. IsFork K.cmp fork.left.now fork.pair.now.value fork.right.now) }
        ensures steps { steps.new ≡ (if is_some result then steps.old + 1 else steps.old) }
    {
        let node = self.node.as_ref()?;
        steps.tick(); // One step for a node that is opened.
        Some(Fork {
            left: &node.left,
            pair: &node.pair,
            right: &node.right,
        })
    }

    /// Makes a node of a pair and the sides below and above it, which is one step.
    pub(crate) fn make<L: Ledger>(
        alloc: Global,
        left: Branch<K, V>,
        pair: Arc<(K, V)>,
        right: Branch<K, V>,
        steps: &mut Steps<L>,
    ) -> Result<Branch<K, V>, NoMemory>
        requires { IsFork K.cmp left pair.value right }
        ensures fork { IfOk result (λ branch. branch ≡ fork_of left pair.value right) }
        ensures steps { steps.new ≡ steps.old + 1 }
    {
        steps.tick(); // One step for a node that is made, also where memory is wanting.
        let Some(height) = left.height().max(right.height()).checked_add(1) else {
            return Err(NoMemory);
        };
        let node = Arc::new(alloc, Node { left, pair, right })?;
        Ok(Branch {
            height,
            node: Some(node),
        })
    }
}
