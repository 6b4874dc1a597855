//! Diagnostics as a client reads them: the faults of a text as rows of the analysis server protocol.
//!
//! A row has the name of the broken rule, a sentence, and the place of the fault with its line and
//! column. `rows_of` in `specs/Rendering.antt` states the rows of a text's faults, `line_of_row` the
//! line that a row is printed as, and `specs/Codes.antt` the names and the sentences. The crate stands
//! on the faults of `judgement`, the rows of `proto_json`, and the lines and columns of `dart_text`.
#![tactic(auto)]

mod code;
mod laws;
mod lines;
mod rows;

pub use code::{code_name, error_kind, message};
pub use laws::codes_are_ordered_by_name;
pub use lines::{line_of, lines_of};
pub use rows::{render, render_at};
