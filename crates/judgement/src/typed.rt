//! What the rules say of each node.

use crate::Meaning;
use dart_tree::NodeId;
use dart_types::DartType;
use flow_model::Flow;
use std::marker::Model;
use std::rc::Rc;

/// What the rules say of an expression, a variable that is declared, or a statement.
///
/// Contracts see it as its value `NodeFacts`, with the four models in full. Nodes that leave a model
/// as it was share it.
#[derive(Drop)]
pub struct TypedNode {
    /// The node.
    pub node: NodeId,
    /// Its static type, where it is an expression.
    pub ty: Option<DartType>,
    /// What its name means, where it names, declares or writes something.
    pub element: Option<Meaning>,
    /// What is known before it.
    pub before: Rc<Flow>,
    /// What is known after it.
    pub after: Rc<Flow>,
    /// What is known where it is true; of a statement, after it.
    pub when_true: Rc<Flow>,
    /// What is known where it is false; of a statement, after it.
    pub when_false: Rc<Flow>,
}

impl Model for TypedNode {
    ghost use Rattle.judgement.specs.NodeFacts.{NodeFacts, node_code};

    ghost Value = { NodeFacts };

    ghost coded = { node_code };

    ghost view = { λ n. record { node = n.node; ty = n.ty; element = n.element; before = n.before.value; after = n.after.value; when_true = n.when_true.value; when_false = n.when_false.value } };
}
