//! The lines of small texts: columns count UTF-16 units, faults may stand in any order, and a file
//! without a text has a line too.

use dart_text::Text;
use dart_tree::Span;
use diagnostics::{lines_of, render};
use judgement::{DiagnosticCode, Fault};
use std::test::Fail;

fn fault(start: u32, end: u32, code: DiagnosticCode) -> Fault {
    let span = Span { start, end };
    Fault { span, code }
}

#[test]
fn rows_are_lines(rt: HostRuntime) -> Result<(), Fail> {
    let alloc = rt.alloc();
    let cases: [(&str, &[Fault], &str); 4] = [
        (
            "void main(){int x; print(x);}\n y;",
            &[
                fault(25, 26, DiagnosticCode::UnassignedRead),
                fault(31, 32, DiagnosticCode::UndefinedName),
            ],
            "/a.dart:1:26: unassigned_read: Unassigned read.\n/a.dart:2:2: undefined_name: Undefined name.\n",
        ),
        (
            "/*😀*/void main(){bool b=1;}",
            &[
                fault(25, 26, DiagnosticCode::InvalidAssignment),
                fault(2, 4, DiagnosticCode::IllegalCharacter),
                fault(4, 4, DiagnosticCode::SyntaxError),
            ],
            "/a.dart:1:26: invalid_assignment: Invalid assignment.\n/a.dart:1:3: illegal_character: Illegal character.\n/a.dart:1:5: syntax_error: Syntax error.\n",
        ),
        (
            "a\nbc\nd",
            &[
                fault(5, 6, DiagnosticCode::UndefinedName),
                fault(0, 1, DiagnosticCode::UndefinedName),
                fault(3, 4, DiagnosticCode::UndefinedName),
                fault(3, 3, DiagnosticCode::UndefinedName),
                fault(2, 3, DiagnosticCode::UndefinedName),
            ],
            "/a.dart:3:1: undefined_name: Undefined name.\n/a.dart:1:1: undefined_name: Undefined name.\n/a.dart:2:2: undefined_name: Undefined name.\n/a.dart:2:2: undefined_name: Undefined name.\n/a.dart:2:1: undefined_name: Undefined name.\n",
        ),
        (
            "",
            &[fault(0, 0, DiagnosticCode::FileNotUtf8)],
            "/a.dart:1:1: file_not_utf8: File not utf8.\n",
        ),
    ];
    for (text, faults, want) in cases {
        let text = Text::from_str(alloc, text)?;
        let rows = render(alloc, "/a.dart", &text, faults)?;
        let lines = lines_of(alloc, rows.as_slice())?;
        assert_eq!(rt; lines.as_slice(), want.as_bytes());
    }
    Ok(())
}
