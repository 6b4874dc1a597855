//! A law of the diagnostics of a text, over their definitions alone.

ghost use Rattle.std.specs.Prelude.{◌≡◌, []};
ghost use Rattle.check_library.specs.Diagnostics.{diagnostics, faults_in};

/// A text of which nothing is reported has nothing wrong with it: the report leaves out repeats alone.
pub fn no_diagnostics_means_no_faults(_text: &[u8])
    ensures { diagnostics _text.now ≡ [] → faults_in _text.now ≡ [] }
{}
