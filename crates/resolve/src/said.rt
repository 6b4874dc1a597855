//! What is said of the nodes of a body, where that is kept.

ghost use Rattle.std.specs.Prelude.{◌≡◌, ◌∷◌, [], is_some, option_map, OnOk};
ghost use Rattle.resolve.specs.Said.{kept, said_more};

use judgement::TypedNode;
use std::alloc::{AllocError, Global};
use std::marker::Model;

/// What is kept of what the rules say of a body.
#[derive(Clone, Copy)]
pub enum Keep {
    /// Its diagnostics, and what is said of its nodes.
    NodesToo,
    /// Its diagnostics alone.
    FaultsAlone,
}

/// What was said of the nodes of a body, those in a node before it, if that is kept.
///
/// Contracts see it as the list of what was said, or as none.
#[derive(Drop)]
pub struct Said {
    nodes: Option<Vec<TypedNode>>,
}

impl Model for Said {
    ghost use Rattle.std.specs.Prelude.{List, Option, option_map};
    ghost use Rattle.std.specs.Coded.{coded_list, coded_option};
    ghost use Rattle.judgement.specs.NodeFacts.{NodeFacts, node_code};

    ghost Value = { Option (List NodeFacts) };

    ghost coded = { coded_option (coded_list node_code) };

    ghost view = { λ s. option_map (λ nodes. nodes.items) s.nodes };
}

impl Said {
    /// Nothing so far.
    pub fn new(alloc: Global, keep: Keep) -> Said
        ensures { result ≡ kept keep [] }
    {
        let nodes = match keep {
            Keep::NodesToo => Some(Vec::new(alloc)),
            Keep::FaultsAlone => None,
        };
        Said { nodes }
    }

    /// Whether it is kept.
    pub(crate) fn is_kept(&self) -> bool
        ensures { result ≡ is_some self.now }
    {
        self.nodes.is_some()
    }

    /// Adds what is said of a node, if that is kept.
    #[tactic(auto, unfolding(crate::specs::Said::said_more))]
    pub(crate) fn add(&mut self, node: TypedNode) -> Result<(), AllocError>
        ensures { OnOk result (self.new ≡ said_more self.old (node ∷ [])) }
    {
        if let Some(nodes) = &mut self.nodes {
            nodes.push(node)?;
        }
        Ok(())
    }

    /// What was said, if that was kept.
    pub fn into_nodes(self) -> Option<Vec<TypedNode>>
        ensures { option_map (λ nodes. nodes.items) result ≡ self }
    {
        self.nodes
    }
}
