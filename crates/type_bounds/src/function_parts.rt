//! Function types that are formed as far as they aren't too large.

ghost use Rattle.std.specs.Prelude.{IfOk};
ghost use Rattle.type_bounds.specs.NamedView.{IsFunctionPart};

use crate::counts::Count;
use crate::named_parts::NamedParts;
use crate::parts::{Part, Parts};
use dart_types::{DartType, FunctionType, NODE_LIMIT};
use std::alloc::{AllocError, Global};

/// The function type of these parameters and this result.
pub(crate) fn function_part(
    alloc: Global,
    required: Parts,
    optional: Parts,
    named: NamedParts,
    result_part: Part,
) -> Result<Part, AllocError>
    ensures { IfOk result (λ part. IsFunctionPart required optional named result_part part) }
{
    let positional = required.nodes.saturating_add(optional.nodes);
    let params = positional.saturating_add(named.nodes);
    let parts = params.saturating_add(result_part.count.nodes);
    let nodes = parts.saturating_add(1);
    let count = Count {
        nodes,
        takes_mark: true,
    };
    let formed = match (
        required.formed,
        optional.formed,
        named.formed,
        result_part.formed,
    ) {
        (Some(required), Some(optional), Some(named), Some(result)) if nodes <= NODE_LIMIT => {
            let function = FunctionType {
                required,
                optional,
                named,
                result,
            };
            Some(DartType::function(alloc, function)?)
        }
        _ => None,
    };
    Ok(Part { count, formed })
}
