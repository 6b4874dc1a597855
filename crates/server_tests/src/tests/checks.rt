//! Checks and runs of the libraries that a file reaches, over stores of several files.

use super::{bytes_in, cell, ends_over, is_comment, store_of};
use plain_text::{PlainBytes, PlainText};
use std::alloc::Global;
use std::test::Fail;

// Checks and runs, each over the files of a store: `WORDS|FAILS|STATUS|OUTPUT`, with each word behind a blank and the
// call that fails; then a line for each file, `PATH|TEXT`.
const CHECKS: &str = r#" check /a.dart||Errors|/a.dart:1:26: unassigned_read: Unassigned read.¶
/a.dart|void main(){int x; print(x);}

 check /a.dart||Done|
/a.dart|void main(){}

 check /a.dart||Errors|/a.dart:1:8: uri_does_not_exist: Uri does not exist.¶/b.dart:1:1: file_not_utf8: File not utf8.¶
/a.dart|import 'c.dart';import 'b.dart';
/b.dart|«#255»

 check /p/main.dart||Errors|/p/lib/a.dart:1:8: uri_does_not_exist: Uri does not exist.¶/p/lib/b.dart:1:23: duplicate_definition: Duplicate definition.¶/p/main.dart:2:25: undefined_name: Undefined name.¶
-- Files are sorted by path. What no import and no export leads to isn't checked, a part without a library
-- neither.
/p/main.dart|export 'lib/c.dart';¶void main(){bool b=true;x;}
/p/lib/c.dart|import 'a.dart';import 'dart:core';
/p/lib/a.dart|import 'n.dart';part 'b.dart';void main(){}
/p/lib/b.dart|part of 'a.dart';void main(){}
/p/lib/d.dart|void main(){x;}
/p/lib/e.dart|part of 'a.dart';int = ;

 check /a.dart||Errors|/a.dart:1:33: undefined_operator: Undefined operator.¶/b.dart:1:17: directive_order: Directive order.¶
-- Libraries that name each other.
/a.dart|import 'b.dart';void main(){true+1;}
/b.dart|export 'a.dart';library b;

 check /p/bin/main.dart||Errors|/p/bin/main.dart:1:8: uri_does_not_exist: Uri does not exist.¶
-- Files are those of the folder in which the file stands, or of the root that is named.
/p/bin/main.dart|import '../lib/a.dart';void main(){}
/p/lib/a.dart|void main(){}

 check /p/bin/main.dart --root /p||Done|
/p/bin/main.dart|import '../lib/a.dart';void main(){}
/p/lib/a.dart|void main(){}

 check --root=/ -- /p/bin/main.dart||Done|
/p/bin/main.dart|import '../lib/a.dart';void main(){}
/p/lib/a.dart|void main(){}

 check /p/bin/main.dart --packages /p/p.json||Errors|/p/bin/main.dart:1:34: uri_does_not_exist: Uri does not exist.¶/p/lib/b/c.dart:1:13: undefined_name: Undefined name.¶
-- The files of packages are there, too.
/p/bin/main.dart|import 'package:p/a.dart';import 'package:q/a.dart';void main(){}
/p/p.json|{"configVersion":2,"packages":[{"name":"p","rootUri":"lib/"}]}
/p/lib/a.dart|import 'b/c.dart';
/p/lib/b/c.dart|void main(){x;}

 check --packages=/p/p.json --root=/p/bin /p/lib/a.dart||Refused|dart_serve: no such library¶
-- But one of them is no file of the root.
/p/bin/main.dart|void main(){}
/p/p.json|{"configVersion":2,"packages":[{"name":"p","rootUri":"lib/"}]}
/p/lib/a.dart|void main(){}

 check /a.dart --packages /p.json||Refused|dart_serve: packages refused¶
/a.dart|void main(){}
/p.json|{"configVersion":3,"packages":[]}

 check /a.dart --packages /p.json||Refused|dart_serve: packages refused¶
/a.dart|void main(){}

 check /b.dart||Refused|dart_serve: no such library¶
/a.dart|void main(){}

 check /a.txt||Refused|dart_serve: no such library¶
/a.txt|void main(){}

 check /||Refused|dart_serve: no such library¶
/a.dart|void main(){}

 check /a.dart||Refused|dart_serve: no such library¶
-- A part is no library.
/a.dart|part of 'b.dart';
/b.dart|part 'a.dart';

 check /a.dart||Refused|dart_serve: limit¶
-- A folder that lies 65 deep.
/a.dart|void main(){}
/d/d/d/d/d/d/d/d/d/d/d/d/d/d/d/d/d/d/d/d/d/d/d/d/d/d/d/d/d/d/d/d/d/d/d/d/d/d/d/d/d/d/d/d/d/d/d/d/d/d/d/d/d/d/d/d/d/d/d/d/d/d/d/d/d/b.dart|void main(){}

 check /a.dart|store 0|FilesFault|
-- The folder is listed and the file is read, two calls; the input isn't read.
/a.dart|void main(){x;}

 check /a.dart|store 1|FilesFault|
/a.dart|void main(){x;}

 check /a.dart|store 2|Errors|/a.dart:1:13: undefined_name: Undefined name.¶
/a.dart|void main(){x;}

 check /a.dart|read 0|Errors|/a.dart:1:13: undefined_name: Undefined name.¶
/a.dart|void main(){x;}

 check /a.dart --packages /p.json|store 0|FilesFault|
/a.dart|void main(){x;}
/p.json|{"configVersion":2,"packages":[]}

 check /a.dart|write 1|WriteFault|/a.dart:
-- A write takes 8 bytes.
/a.dart|void main(){x;}

 check /b.dart|write 0|WriteFault|
/a.dart|void main(){x;}

 run /a.dart||Done|1¶
-- What stands beside the library isn't run, nor checked.
/a.dart|void main(){print(1);}
/b.dart|void main(){x;}

 run /a.dart --steps 2 --root=/||StepsSpent|1¶steps spent¶
/a.dart|void main(){print(1);print(2);}

 run /p/bin/main.dart||Errors|/p/bin/main.dart:1:8: uri_does_not_exist: Uri does not exist.¶
/p/bin/main.dart|import '../lib/a.dart';void main(){}
/p/lib/a.dart|void main(){}

 run /a.dart||Errors|/b.dart:1:13: undefined_name: Undefined name.¶
-- What is wrong with a library that is reached is printed, and nothing is run.
/a.dart|import 'b.dart';void main(){print(1);}
/b.dart|void main(){x;}

 run /p/bin/main.dart --root /p||Rejected|dart_serve: not built¶
-- Nothing is wrong, but directives aren't built in runs yet.
/p/bin/main.dart|import '../lib/a.dart';void main(){print(1);}
/p/lib/a.dart|void main(){}

 run /a.dart --packages /p/p.json||Rejected|dart_serve: not built¶
/a.dart|import 'package:p/a.dart';void main(){}
/p/p.json|{"configVersion":2,"packages":[{"name":"p","rootUri":"lib/"}]}
/p/lib/a.dart|

 run /a.dart||Rejected|dart_serve: not built¶
-- A part may declare `main`.
/a.dart|part 'b.dart';
/b.dart|part of 'a.dart';void main(){print(1);}

 run /a.dart||Refused|dart_serve: no main¶
/a.dart|export 'b.dart';
/b.dart|void main(){}

 run /b.dart||Refused|dart_serve: no such library¶
/a.dart|part 'b.dart';
/b.dart|part of 'a.dart';void main(){print(1);}

 run --packages=/p.json /a.dart||Refused|dart_serve: packages refused¶
/a.dart|void main(){print(1);}

 run /a.dart --packages /p.json|store 0|FilesFault|
/a.dart|void main(){print(1);}
/p.json|{"configVersion":2,"packages":[]}

 run /a.dart|write 0|WriteFault|
/a.dart|import 'b.dart';void main(){}
/b.dart|"#;

/// The files of lines.
fn files_in(alloc: Global, lines: &str) -> Result<Vec<(PlainText, PlainBytes)>, Fail> {
    let mut files = Vec::new(alloc);
    for line in lines.lines() {
        if !is_comment(line) {
            let (path, text) = cell(line)?;
            let text = PlainBytes::from_vec(bytes_in(alloc, text)?);
            files.push((PlainText::new(alloc, path)?, text))?;
        }
    }
    Ok(files)
}

/// Whether words end with a status and write this, where these files stand and a call fails. There is no
/// input.
fn ends_where(
    alloc: Global,
    words: &str,
    fails: &str,
    files: &str,
    status: &str,
    output: &[u8],
) -> Result<bool, Fail> {
    let store = store_of(alloc, files_in(alloc, files)?, fails)?;
    ends_over(alloc, words, fails, store, Vec::new(alloc), status, output)
}

/// Whether a check or a run ends and writes as its head says.
fn is_right(alloc: Global, block: &str) -> Result<bool, Fail> {
    let (head, files) = block.split_once('\n').ok_or("no files")?;
    let (words, head) = cell(head)?;
    let (fails, head) = cell(head)?;
    let (status, output) = cell(head)?;
    let output = bytes_in(alloc, output)?;
    ends_where(alloc, words, fails, files, status, &output)
}

#[test]
fn libraries_are_checked_and_run(rt: HostRuntime) -> Result<(), Fail> {
    for block in CHECKS.split("\n\n") {
        assert!(rt; is_right(rt.alloc(), block)?, "{block}");
    }
    Ok(())
}
