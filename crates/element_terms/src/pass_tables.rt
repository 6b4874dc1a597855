//! Tables of the names that combinators let pass.

ghost use Rattle.std.specs.Prelude.{◌≡◌, ◌≢◌, ◌≤◌, ◌<◌, ◌+◌, ◌^◌, ◌==◌, ℕ, List, bytes_eq, string_bytes, IfOk, OnOk};
ghost use Rattle.std.specs.List.{list_all};
ghost use Rattle.element_terms.specs.Combinators.{is_among, lets_pass};
ghost use Rattle.element_terms.specs.NameTexts.{means};
ghost use Rattle.element_terms.specs.PassTables.{AddsCombinator, IsPassTable, Moves, stage_of};

use crate::combinators::Combinator;
use crate::names::setter_of;
use plain_text::PlainText;
use std::alloc::{AllocError, Global};
use std::collections::BTreeMap;

/// How far names come through combinators. Each `show` is a stage, which the names reach that it lists
/// and that were at the one before; `hide` puts those that it lists out of the way of all stages.
#[derive(Debug, Drop)]
pub(crate) struct PassTable {
    /// The stage of each name that is listed, and of the setters that go with them; 0 is none.
    pub(crate) stages: BTreeMap<String, usize>,
    /// The last stage.
    pub(crate) last: usize,
}

impl PassTable {
    /// Whether each combinator lets a name pass, in the time of log n of n names that they list.
    pub(crate) fn passes(&self, name: &str) -> bool
        ensures { result ≡ (stage_of self.now.stages name.now == self.now.last) }
    {
        stage_of(&self.stages, name) == self.last
    }
}

/// The table of combinators.
pub(crate) fn pass_table(alloc: Global, combinators: &[Combinator]) -> Result<PassTable, AllocError>
    ensures { IfOk result (λ table. IsPassTable combinators.now table.stages table.last) }
{
    let mut table = PassTable {
        stages: BTreeMap::new(alloc),
        last: 1,
    };
    for combinator in combinators {
        add_combinator(alloc, combinator, &mut table)?;
    }
    Ok(table)
}

/// Adds one combinator behind others.
fn add_combinator(
    alloc: Global,
    combinator: &Combinator,
    table: &mut PassTable,
) -> Result<(), AllocError>
    requires few { table.old.last + 1 < 2 ^ 64 }
    requires some { 0 < table.old.last }
    requires below { (q : List ℕ) → stage_of table.old.stages q ≤ table.old.last }
    ensures { OnOk result (AddsCombinator combinator.now table.old.stages table.old.last table.new.stages table.new.last) }
{
    let last = table.last;
    match combinator {
        Combinator::Show(names) => {
            let next = last + 1;
            move_listed(alloc, names.as_slice(), last, next, &mut table.stages)?;
            table.last = next;
            Ok(())
        }
        Combinator::Hide(names) => {
            move_listed(alloc, names.as_slice(), last, 0, &mut table.stages)
        }
    }
}

/// Moves the names that are listed, and the setters that go with them, from one stage to another.
fn move_listed(
    alloc: Global,
    names: &[PlainText],
    from: usize,
    to: usize,
    stages: &mut BTreeMap<String, usize>,
) -> Result<(), AllocError>
    requires { from ≢ to }
    ensures { OnOk result (Moves (is_among names.now) from to stages.old stages.new) }
{
    for name in names {
        move_written(alloc, name.as_str(), from, to, stages)?;
    }
    Ok(())
}

/// Moves a written name, and the setter that goes with it, from one stage to another.
fn move_written(
    alloc: Global,
    written: &str,
    from: usize,
    to: usize,
    stages: &mut BTreeMap<String, usize>,
) -> Result<(), AllocError>
    requires { from ≢ to }
    ensures { OnOk result (Moves (means written.now) from to stages.old stages.new) }
{
    let own = String::from_str(alloc, written)?;
    move_name(own, from, to, stages)?;
    let setter = setter_of(alloc, written)?;
    move_name(setter, from, to, stages)
}

/// Moves a name from one stage to another, if it is there.
fn move_name(
    name: String,
    from: usize,
    to: usize,
    stages: &mut BTreeMap<String, usize>,
) -> Result<(), AllocError>
    ensures { OnOk result (Moves (bytes_eq (string_bytes name)) from to stages.old stages.new) }
{
    if stage_of(stages, name.as_str()) != from {
        return Ok(());
    }
    stages.insert(name, to)?;
    Ok(())
}

/// The stage of a name.
fn stage_of(stages: &BTreeMap<String, usize>, name: &str) -> usize
    ensures { result ≡ stage_of stages.now name.now }
{
    stages.get(name).copied().unwrap_or(1)
}
