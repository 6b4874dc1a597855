//! Named parameters that are formed as far as they aren't too large.

ghost use Rattle.std.specs.Prelude.{IfOk};
ghost use Rattle.dart_types.specs.Ty.{no_named};
ghost use Rattle.type_bounds.specs.NamedView.{AreNamedParts, AreBefore, HaveOneMore};

use crate::parts::Part;
use dart_types::{NODE_LIMIT, NamedType, NamedTypes};
use plain_text::PlainText;
use std::alloc::{AllocError, Global};

/// Named parameters of a function type that a rule gives. They are formed unless they are too large.
#[derive(Drop)]
pub(crate) struct NamedParts {
    pub(crate) nodes: u64,
    pub(crate) formed: Option<NamedTypes>,
}

impl NamedParts {
    /// No parameters.
    pub(crate) fn new(alloc: Global) -> NamedParts
        ensures { AreNamedParts result no_named }
    {
        NamedParts {
            nodes: 0,
            formed: Some(NamedTypes::new(alloc)),
        }
    }

    /// One more parameter at the end, whose name comes after the others.
    pub(crate) fn with(
        self,
        name: &PlainText,
        required: bool,
        part: Part,
    ) -> Result<NamedParts, AllocError>
        requires { AreBefore self.formed name.now }
        ensures { IfOk result (λ parts. HaveOneMore self name.now required part parts) }
    {
        let nodes = self.nodes.saturating_add(part.count.nodes);
        let unformed = NamedParts {
            nodes,
            formed: None,
        };
        let mut named = match self.formed {
            None => return Ok(unformed),
            Some(named) => named,
        };
        let ty = match part.formed {
            None => return Ok(unformed),
            Some(ty) => ty,
        };
        if nodes > NODE_LIMIT {
            return Ok(unformed);
        }
        named.push(NamedType {
            name: name.copy()?,
            required,
            ty,
        })?;
        Ok(NamedParts {
            nodes,
            formed: Some(named),
        })
    }
}
