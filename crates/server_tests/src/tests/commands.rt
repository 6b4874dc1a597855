//! The commands that words are, over a table.

use command_words::{Command, command_of};
use plain_text::PlainText;
use std::alloc::{AllocError, Global};
use std::test::Fail;

// Words, and the command that they are: its name, its paths, where `-` stands for one that isn't
// named, and its steps; nothing, where they are none.
const ROWS: &str = "\
serve => serve -
serve -- => serve -
serve --packages /p.json => serve /p.json
serve --packages=/p.json => serve /p.json
serve --packages /p.json -- => serve /p.json
serve --packages / => serve /
check /a.dart => check /a.dart - -
check /a.dart --root /p --packages /p.json => check /a.dart /p /p.json
check --root=/p /a.dart --packages=/p.json => check /a.dart /p /p.json
check --packages /p.json --root=/p -- /a.dart => check /a.dart /p /p.json
check -- /a.dart => check /a.dart - -
check --root / / => check / / -
check /--root=/a => check /--root=/a - -
run /a.dart => run /a.dart - - 10000000
run /a.dart --steps 0 => run /a.dart - - 0
run --steps=007 /a.dart => run /a.dart - - 7
run --steps 999999999999999 -- /a.dart => run /a.dart - - 999999999999999
run /a.dart --steps=000000000000001 => run /a.dart - - 1
run /a.dart --root /p => run /a.dart /p - 10000000
run /a.dart --packages=/p.json => run /a.dart - /p.json 10000000
run /a.dart --root /p --packages /p.json --steps 5 => run /a.dart /p /p.json 5
run --steps 5 --packages=/p.json --root=/p /a.dart => run /a.dart /p /p.json 5
run --packages /p.json /a.dart --steps=5 --root / => run /a.dart / /p.json 5
run --root /p --steps 5 -- /a.dart => run /a.dart /p - 5
-- serve =>
help =>
--help =>
serve --help =>
serve /a.dart =>
serve --root /p =>
serve --steps 5 =>
serve --packages =>
serve --packages= =>
serve --packages p.json =>
serve --packages /p/ =>
serve --packages /p.json --packages=/p.json =>
serve --packages -- /p.json =>
serve -- --packages /p.json =>
serve -packages /p.json =>
serve --Packages /p.json =>
check =>
check -- =>
check a.dart =>
check /a.dart /b.dart =>
check /a.dart -- /b.dart =>
check /a.dart -- -- =>
check /a.dart --root =>
check /a.dart --root --packages =>
check /a.dart --root -p =>
check /a.dart --root=-p =>
check /a.dart --root=p =>
check /a.dart --root /p/../q =>
check /a.dart --root=/p --root=/p =>
check /a.dart --steps 5 =>
check /a.dart -- --root /p =>
check /a.dart - =>
check -a.dart =>
check -- -a.dart =>
check /a.dart --roots /p =>
run =>
run /a.dart --steps =>
run /a.dart --steps= =>
run /a.dart --steps 1000000000000000 =>
run /a.dart --steps 5x =>
run /a.dart --steps +5 =>
run /a.dart --steps -5 =>
run /a.dart --steps 5 --steps 5 =>
run --steps 5 =>
run --root /p --packages /p.json =>
run a.dart --root /p =>
run /a.dart /b.dart --root /p =>
run /a.dart --root =>
run /a.dart --root --packages /p.json =>
run /a.dart --root -p =>
run /a.dart --root=-p =>
run /a.dart --root p =>
run /a.dart --root=/p/../q =>
run /a.dart --root /p --root=/p =>
run /a.dart --packages -p =>
run /a.dart --packages=-p =>
run /a.dart --packages p.json =>
run /a.dart --packages /p.json --steps 5 --packages /p.json =>
run /a.dart --steps --root /p =>
run /a.dart --root /p --packages /p.json --steps 5x =>
run /a.dart -- --root /p =>
";

// A path that may be left out.
fn text_or_dash(path: &Option<PlainText>) -> &str {
    match path {
        Some(path) => path.as_str(),
        None => "-",
    }
}

// A command as the table has it.
fn text_of(alloc: Global, command: &Command) -> Result<String, AllocError> {
    match command {
        Command::Serve { packages } => {
            let packages = text_or_dash(packages);
            format!(in alloc; "serve {packages}")
        }
        Command::Check {
            file,
            root,
            packages,
        } => {
            let file = file.as_str();
            let root = text_or_dash(root);
            let packages = text_or_dash(packages);
            format!(in alloc; "check {file} {root} {packages}")
        }
        Command::Run {
            file,
            root,
            packages,
            steps,
        } => {
            let file = file.as_str();
            let root = text_or_dash(root);
            let packages = text_or_dash(packages);
            format!(in alloc; "run {file} {root} {packages} {steps}")
        }
        Command::Refused => String::from_str(alloc, ""),
    }
}

#[test]
fn words_are_their_commands(rt: HostRuntime) -> Result<(), Fail> {
    let alloc = rt.alloc();
    for row in ROWS.lines() {
        let (written, expected) = row.split_once(" =>").unwrap_or((row, "-"));
        let mut words = Vec::new(alloc);
        for word in written.split(' ') {
            words.push(PlainText::new(alloc, word)?)?;
        }
        let command = command_of(alloc, &words)?;
        let found = text_of(alloc, &command)?;
        assert_eq!(rt; found.as_str(), expected.trim_start(), "{row}");
    }
    let none: [PlainText; 0] = [];
    assert!(rt; matches!(command_of(alloc, &none)?, Command::Refused));
    Ok(())
}
