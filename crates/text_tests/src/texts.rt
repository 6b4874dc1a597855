//! Edits and positions of small texts, and the longest text.

use dart_text::{EditRefusal, EditedText, MAX_TEXT, Position, Positions, Text, TextRefusal};
use std::alloc::{AllocError, Global};
use std::test::Fail;

#[test]
fn edits_count_code_units(rt: HostRuntime) -> Result<(), Fail> {
    let range = |length| Some(EditRefusal::OutOfRange { length });
    let pair = |at| Some(EditRefusal::SplitsPair { at });
    let last = u64::MAX;
    let cases = [
        ("", 0, 0, "", "", None),
        ("", 0, 0, "a😀", "a😀", None),
        ("abc", 0, 0, "x", "xabc", None),
        ("abc", 3, 0, "x", "abcx", None),
        ("abc", 1, 1, "xyz", "axyzc", None),
        ("abc", 0, 3, "", "", None),
        ("é€b", 1, 1, "e", "éeb", None),
        ("a😀b", 1, 2, "", "ab", None),
        ("a😀b", 3, 1, "😀", "a😀😀", None),
        ("😀😀", 2, 0, "-", "😀-😀", None),
        ("a\r\nb\n", 2, 1, "", "a\rb\n", None),
        // the range is told before a pair, and the start of the edit before its end
        ("", 0, 1, "xy", "", range(0)),
        ("abc", 4, 0, "xy", "abc", range(3)),
        ("abc", 3, 1, "xy", "abc", range(3)),
        ("a😀b", 2, 3, "xy", "a😀b", range(4)),
        ("abc", 1, last, "xy", "abc", range(3)),
        ("abc", last, last, "xy", "abc", range(3)),
        ("a😀b", 2, 0, "xy", "a😀b", pair(2)),
        ("a😀b", 0, 2, "xy", "a😀b", pair(2)),
        ("😀😀", 1, 2, "xy", "😀😀", pair(1)),
    ];
    for (text, offset, length, with, want, refusal) in cases {
        let mut edited = Text::from_str(rt.alloc(), text)?;
        let mut pieces = EditedText::of(rt.alloc(), &edited)?;
        assert_eq!(rt;
            edited.edit(offset, length, with).err(),
            refusal,
            "{text:?} at {offset}"
        );
        assert_eq!(rt; edited.as_str(), want, "{text:?} at {offset}");
        assert_eq!(rt;
            pieces.edit(offset, length, with).err(),
            refusal,
            "{text:?} at {offset}"
        );
        assert_eq!(rt; pieces.to_text()?.as_str(), want, "{text:?} at {offset}");
    }
    Ok(())
}

// A text of `MAX_TEXT` letters.
fn longest(alloc: Global) -> Result<String, AllocError> {
    let mut text = String::from_str(alloc, "abcd")?;
    for _ in 0..20 {
        let half = text.clone()?;
        text.push_str(half.as_str())?;
    }
    Ok(text)
}

#[test]
fn a_text_has_at_most_4_mebibytes(rt: HostRuntime) -> Result<(), Fail> {
    let alloc = rt.alloc();
    let mut letters = longest(alloc)?;
    assert_eq!(rt; letters.len(), MAX_TEXT);
    let mut text = Text::from_str(alloc, letters.as_str())?;
    let mut pieces = EditedText::of(alloc, &text)?;
    let longer = Some(EditRefusal::TooLong { bytes: 4_194_305 });
    let edits = [
        (0, 0, "x", longer),
        (0, 1, "é", longer),
        (0, 2, "é", None),
        (4_194_302, 1, "é", longer),
        // over many pieces, at the end of some, and all of them
        (1_000_000, 2_000_000, "x😀y", None),
        (2_048, 0, "-", None),
        (2_048, 2_048, "", None),
        (1, 1_500_000, "é", None),
        (0, 692_261, letters.as_str(), None),
        (4_194_304, 0, "", None),
    ];
    for (offset, length, with, refusal) in edits {
        assert_eq!(rt;
            text.edit(offset, length, with).err(),
            refusal,
            "at {offset}"
        );
        assert_eq!(rt;
            pieces.edit(offset, length, with).err(),
            refusal,
            "at {offset}"
        );
        assert!(rt; pieces.to_text()?.as_str() == text.as_str(), "at {offset}");
    }
    assert_eq!(rt; text.as_str().len(), MAX_TEXT);
    letters.push('e')?;
    let refused = Text::from_str(alloc, letters.as_str()).err();
    assert_eq!(rt; refused, Some(TextRefusal::TooLong { bytes: 4_194_305 }));
    Ok(())
}

#[test]
fn a_text_is_utf8(rt: HostRuntime) -> Result<(), Fail> {
    let alloc = rt.alloc();
    let text = Text::new(alloc, "aé😀".as_bytes())?;
    assert_eq!(rt; text.as_str(), "aé😀");
    assert_eq!(rt; text.len16(), 4);
    assert_eq!(rt; text.copy()?.as_str(), "aé😀");
    let cases = [[0xff, 0x61], [0xc3, 0x28], [0x61, 0xc3]];
    for bytes in cases {
        assert_eq!(rt; Text::new(alloc, &bytes).err(), Some(TextRefusal::NotUtf8));
    }
    Ok(())
}

#[test]
fn lines_end_at_line_feeds(rt: HostRuntime) -> Result<(), Fail> {
    // in any order, and some again
    let offsets = [3, 0, 4, 4, 1, u32::MAX, 2, 2];
    let cases = [
        (
            "",
            [
                (1, 1),
                (1, 1),
                (1, 1),
                (1, 1),
                (1, 1),
                (1, 1),
                (1, 1),
                (1, 1),
            ],
        ),
        (
            "a\n\nb",
            [
                (3, 1),
                (1, 1),
                (3, 2),
                (3, 2),
                (1, 2),
                (3, 2),
                (2, 1),
                (2, 1),
            ],
        ),
        (
            "\r\na\rb",
            [
                (2, 2),
                (1, 1),
                (2, 3),
                (2, 3),
                (1, 2),
                (2, 4),
                (2, 1),
                (2, 1),
            ],
        ),
        (
            "é\n€\n",
            [
                (2, 2),
                (1, 1),
                (3, 1),
                (3, 1),
                (1, 2),
                (3, 1),
                (2, 1),
                (2, 1),
            ],
        ),
        (
            "😀a\n",
            [
                (1, 4),
                (1, 1),
                (2, 1),
                (2, 1),
                (1, 2),
                (2, 1),
                (1, 3),
                (1, 3),
            ],
        ),
    ];
    for (text, want) in cases {
        let text = Text::from_str(rt.alloc(), text)?;
        let mut positions = Positions::of(&text);
        for (offset, (line, column)) in offsets.iter().zip(want) {
            let position = Position { line, column };
            assert_eq!(rt; text.line_column(*offset), position, "{text:?} at {offset}");
            assert_eq!(rt; positions.at(*offset), position, "{text:?} at {offset}");
        }
    }
    Ok(())
}
