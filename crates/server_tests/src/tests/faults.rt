//! Calls that fail, and how the program then ends.

use super::{Run, bytes_in, cell, ends, is_comment};
use std::alloc::Global;
use std::test::Fail;

// A text is given, and its errors are asked for.
const SESSION: &str =
    r#"{"id":"1","method":"analysis.updateContent","params":{"files":{"/a.dart":{"type":"add","content":"void main() {}"}}}}
{"id":"2","method":"analysis.getErrors","params":{"file":"/a.dart"}}"#;

// `WORDS|FAILS|TEXT|STATUS|OUTPUT`: the words, each behind a blank, the call that fails, the text of
// `/a.dart`, and then the status and the output.
const FAULTS: &str = r#"
 serve|read 99||Done|{"id":"1"}¶{"id":"2","result":{"errors":[]}}¶
-- The second reply takes several writes, of 8 bytes each.
 serve|write 0||WriteFault|
 serve|write 2||WriteFault|{"id":"1"}¶
 serve|write 4||WriteFault|{"id":"1"}¶{"id":"2","resul
-- The first line ends within the eighth read, of 16 bytes each.
 serve|read 0||ReadFault|
 serve|read 7||ReadFault|
 serve|read 8||ReadFault|{"id":"1"}¶
-- Under `serve` the store isn't asked.
 serve|store 0||Done|{"id":"1"}¶{"id":"2","result":{"errors":[]}}¶
-- Under `serve --packages` it is asked for the file once, before the input is read.
 serve --packages /a.dart|store 0|{"configVersion":2,"packages":[]}|FilesFault|
 serve --packages /a.dart|store 1|{"configVersion":2,"packages":[]}|Done|{"id":"1"}¶{"id":"2","result":{"errors":[]}}¶
 serve --packages /a.dart|read 0|{"configVersion":2,"packages":[]}|ReadFault|
 serve --packages /a.dart|read 0|{"configVersion":3,"packages":[]}|Refused|dart_serve: packages refused¶
 serve --packages /a.dart|write 1||WriteFault|dart_ser
-- Under `run` the folder is listed and the file is read, two calls; the input isn't read.
 run /a.dart --steps 10|store 0|void main(){print(123456789);}|FilesFault|
 run /a.dart --steps 10|store 1|void main(){print(123456789);}|FilesFault|
 run /a.dart --steps 10|store 2|void main(){print(123456789);}|Done|123456789¶
 run /a.dart --steps 10|write 1|void main(){print(123456789);}|WriteFault|12345678
 run /a.dart --steps 10|write 0|void main(){int x; print(x);}|WriteFault|
 run /a.dart --steps 10|write 2|void main(){int x; print(x);}|WriteFault|/a.dart:1:26: un
 run /a.dart --steps 10|write 1|void main(){while(true){}}|WriteFault|steps sp
"#;

/// Whether a run ends and writes as its line says.
fn is_right(alloc: Global, line: &str) -> Result<bool, Fail> {
    let (words, line) = cell(line)?;
    let (fails, line) = cell(line)?;
    let (text, line) = cell(line)?;
    let (status, output) = cell(line)?;
    let file = ("/a.dart", text);
    let run = Run { words, fails, file };
    let input = SESSION.as_bytes().to_vec(alloc)?;
    ends(alloc, run, input, status, &bytes_in(alloc, output)?)
}

#[test]
fn faults_end_the_program(rt: HostRuntime) -> Result<(), Fail> {
    for line in FAULTS.lines() {
        assert!(rt; is_comment(line) || is_right(rt.alloc(), line)?, "{line}");
    }
    Ok(())
}
