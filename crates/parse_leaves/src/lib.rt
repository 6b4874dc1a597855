//! The leaves of the parser of types, parameters, expressions, statements and blocks: what is told by
//! the next tokens alone, and what the parsers of larger parts share.
//!
//! `leaves.rt` reads single tokens and groups, `operators.rt` operators, also those whose lexemes
//! stand side by side, and `type_leaves.rt` the parts of types that hold no other node; `ahead.rt`
//! has the tests of the tokens that come next, `outline.rt` the one of type arguments, `parameters.rt` the one of a closure, `behind.rt` whether anything, or a selector, may stand
//! behind an expression, and `places.rt` where what was read stands. Each
//! contract states that the answer is exactly what the way down of `grammar` finds or tests there
//! (`specs/Answers.antt` says how answers and findings agree).
//!
//! `below.rt` has the trait of what reads the parts of a node where fewer nodes may lie on a way
//! down, `filled.rt` what fills a group over it, and `parts.rt` what is held of a node before it is made;
//! `specs/Loops.antt`, `Groups.antt`, `Ways.antt` and `Sizes.antt` have what loops, groups, ways down and
//! heights keep.
//! The crate stands on `dart_tokens`, `dart_tree`, `readings` and `grammar`.
#![tactic(auto)]

mod ahead;
mod behind;
mod below;
mod filled;
mod leaves;
mod miss;
mod operators;
mod outline;
mod parameters;
mod parts;
mod places;
mod type_leaves;

pub use ahead::{
    heads, heads_either, heads_field, heads_label, heads_name, heads_nullable, heads_prefix,
    heads_qualified, heads_required, heads_string, heads_untyped,
};
pub use behind::{is_incremented, is_open};
pub use below::Below;
pub use filled::{block_body, expression_group};
pub use leaves::{
    either_token, first_tokens, group, name, some_name, token, tokens_behind, type_word,
};
pub use miss::Miss;
pub use operators::{
    assignment_operator, binary_operator, heads_binary, is_level, next_level, postfix_operator,
    prefix_operator, sign_at,
};
pub use outline::{heads_call, heads_generic};
pub use parameters::heads_closure;
pub use parts::{Contents, Header, Selector, Side, Tail};
pub use places::{higher, identifier_at, name_at, place_of, place_over, span_of, span_over};
pub use type_leaves::{TypePlace, annotation, heads_end, question, type_name};
