//! What an overlay makes of the text of a file.

ghost use Rattle.std.specs.Prelude.{◌≡◌, Some};
ghost use Rattle.std.specs.Option.{option_copied};
ghost use Rattle.overlays.specs.Applied.{edited_by, text_after};
ghost use Rattle.overlays.specs.Results.{IsUnlessMemory, IsEditedUnlessMemory};
ghost use Rattle.proto_json.specs.declared.overlay.Overlay.TheVariants.{Add, Change};

use crate::refusal::OverlayRefusal;
use dart_text::{EditRefusal, EditedText, Text, TextRefusal};
use plain_text::PlainText;
use proto_json::{FileOverlay, Overlay, OverlayEdit};
use std::alloc::Global;

/// The text that a file has after its overlay, by the one that it had: None where it has none.
#[tactic(auto, unfolding(crate::specs::Applied::text_after))]
pub(crate) fn text_after(
    alloc: Global,
    file: &FileOverlay,
    old: Option<&Text>,
) -> Result<Option<Text>, OverlayRefusal>
    ensures { IsUnlessMemory result (text_after file.now.path file.now.overlay (option_copied old.entry)) }
{
    match &file.overlay {
        Overlay::Add { content } => added(alloc, &file.path, content),
        Overlay::Change { edits } => match old {
            Some(text) => changed(alloc, &file.path, text, edits.as_slice()),
            None => Err(OverlayRefusal::bad_change(&file.path)?),
        },
        Overlay::Remove => Ok(None),
    }
}

// The text that is added.
#[tactic(auto, unfolding(crate::specs::Applied::text_after, dart_text::specs::Edits::short_text))]
fn added(
    alloc: Global,
    path: &PlainText,
    content: &PlainText,
) -> Result<Option<Text>, OverlayRefusal>
    ensures { IsUnlessMemory result (text_after path.now (Add content.now) None) }
{
    match Text::from_str(alloc, content.as_str()) {
        Ok(text) => Ok(Some(text)),
        Err(TextRefusal::NotUtf8) => unreachable!(),
        Err(TextRefusal::TooLong { bytes }) => Err(OverlayRefusal::too_long(path, bytes)?),
        Err(TextRefusal::Memory) => Err(OverlayRefusal::Memory),
    }
}

// The text that is there, changed.
#[tactic(auto, unfolding(crate::specs::Applied::text_after))]
fn changed(
    alloc: Global,
    path: &PlainText,
    text: &Text,
    edits: &[OverlayEdit],
) -> Result<Option<Text>, OverlayRefusal>
    ensures { IsUnlessMemory result (text_after path.now (Change edits.now) (Some text.now)) }
{
    match edited_by(alloc, text, edits) {
        Ok(text) => Ok(Some(text)),
        Err(EditRefusal::OutOfRange { .. }) => Err(OverlayRefusal::bad_change(path)?),
        Err(EditRefusal::SplitsPair { .. }) => Err(OverlayRefusal::bad_change(path)?),
        Err(EditRefusal::TooLong { bytes }) => Err(OverlayRefusal::too_long(path, bytes)?),
        Err(EditRefusal::Memory) => Err(OverlayRefusal::Memory),
    }
}

// The text after these edits, each of which applies to the text that the one before it leaves.
fn edited_by(alloc: Global, text: &Text, edits: &[OverlayEdit]) -> Result<Text, EditRefusal>
    ensures { IsEditedUnlessMemory result (edited_by edits.now text.now) }
{
    let mut edited = EditedText::of(alloc, text)?;
    for edit in edits {
        edited.edit(edit.offset, edit.length, edit.replacement.as_str())?;
    }
    let text = edited.to_text()?;
    Ok(text)
}
