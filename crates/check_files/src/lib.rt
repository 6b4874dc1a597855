//! What is wrong with files that name each other.
//!
//! A file is lent with its path and what it contains (`LentFile`, `specs/Lent.antt`): a text, or a mark
//! that it holds none (`specs/Contents.antt`). `link` reads files: what each says to others, and what is
//! wrong with its own text, its directives aside (`specs/Sources.antt`), and which files their directives
//! name (`specs/Links.antt`). `faults_at` gives the diagnostics of one file among them, and
//! `findings_from` what is found in each library that a library reaches, in order (`specs/Reports.antt`,
//! `specs/Findings.antt`): what is wrong with the texts of its files, with their directives and declared
//! names, and with its exports. Each of the two is settled (`specs/Laws.antt`). Where nothing is found, all
//! that is said of the text of a file by itself is that its directives aren't built (`specs/Clear.antt`).
//! `lines_of` are the lines that findings are printed as (`specs/Lines.antt`), by the path and the text of
//! the file at a place (`path_at`, `text_held`). The crate stands on the check of a text, on directives and
//! libraries, and on the graph of libraries.
#![tactic(auto)]

mod again;
mod findings;
mod laws;
mod lent;
mod lines;
mod links;
mod reports;
mod sources;

pub use findings::Finding;
pub use laws::{diagnostics_are_settled, findings_are_settled};
pub use lent::{LentContents, LentFile, empty_text, lent_contents, lent_file, lent_files};
pub use lines::{lines_of, path_at, text_held};
pub use links::{Linked, library_in, link, link_again, place_in};
pub use reports::{faults_at, findings_from};
pub use sources::OwnFaults;
