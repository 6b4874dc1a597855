//! Runs of files, worked out by hand from the step table and the layout of points.

use super::{Run, bytes_in, cell, ends, is_comment};
use std::alloc::Global;
use std::test::Fail;

// `TEXT|STEPS|OUTPUT`: a program with its steps, the last of which ends it, and what it prints.
const PROGRAMS: &str = "
void main(){}|2|
void main(){1+2;3;}|3|
void main(){print(1+2);}|4|3¶
void main(){print(9223372036854775807+1);}|4|-9223372036854775808¶
void main(){print((1)+(2));}|4|3¶
void main(){print((1+2)+3);}|5|6¶
void main(){print(1+2<4);}|5|true¶
void main(){int? x=5;if(((x)!=null)){print(x+x);}}|8|10¶
void main(){int? x;if(x!=null){print(x+1);}else{x=4;print(x+1);}print(x);}|10|5¶4¶
void main(){print(null);print(true);print(false);print(0);print(7);}|7|null¶true¶false¶0¶7¶
void main(){print(1<2);print(2<1);print(2<2);print(1!=1);print(1!=2);}|12|true¶false¶false¶false¶true¶
void main(){print(true!=false);print(null!=null);print(1!=null);}|8|true¶false¶true¶
void main(){int x=1;x=x+1;print(x);}|8|2¶
void main(){if(true){print(1);}else{print(2);}}|4|1¶
void main(){if(1<0){print(1);}print(3);}|5|3¶
void main(){int i=0;while(i<3){print(i);i=i+1;}}|34|0¶1¶2¶
void main(){int x=1;{int x=2;print(x);}print(x);}|8|2¶1¶
void main(){bool b=1!=2;print(b);}|6|true¶
void main(){int? x=5;if(x!=null){print(x+x);}}|8|10¶
void main(){int? x=5;print(x!=null);}|6|true¶
void main(){int x=0x7fffffffffffffff;int y=x+x;print(y);}|9|-2¶
void main(){int x=0xffffffffffffffff;print(x);}|5|-1¶
void main(){int i=0;while(i!=2){int? x;if(x!=null){print(9);}print(x);x=i;i=i+1;}}|33|null¶null¶
void main(){int x;if(1<2){x=1;}else{x=2;}print(x);}|8|1¶
void main(){while(false){print(1);}print(2);}|5|2¶
void main(){int i=0;while(i<2){int j=0;while(j<2){print(i+j);j=j+1;}i=i+1;}}|75|0¶1¶1¶2¶
";

// `TEXT|STEPS|STATUS|OUTPUT`: a file, the steps that it is run for, and the status and the output.
const RUNS: &str = "
void main(){print(1);while(true){print(2);}}|0|StepsSpent|steps spent¶
void main(){print(1);while(true){print(2);}}|9|StepsSpent|1¶2¶2¶steps spent¶
void main(){while(true){}}|1000|StepsSpent|steps spent¶
void main(){}|999999999999999|Done|
-- An output is written in pieces of 65,536 bytes: this is one of 80,000 bytes, in 320,007 steps.
void main(){int i=0;while(i<40000){print(1);i=i+1;}}|320007|Done|«40000:1¶»
void main(){int i=0;while(i<40000){print(1);i=i+1;}}|320006|StepsSpent|«40000:1¶»steps spent¶
-- Where there are diagnostics, no step is taken.
void main(){¶/*😀*/x;¶int y=true;}|9|Errors|/a.dart:2:7: undefined_name: Undefined name.¶/a.dart:3:7: invalid_assignment: Invalid assignment.¶
void main(){¶/*😀*/x;¶int y=true;}|0|Errors|/a.dart:2:7: undefined_name: Undefined name.¶/a.dart:3:7: invalid_assignment: Invalid assignment.¶
-- Where nothing is wrong, and there is no function `main`, there is nothing to run.
|9|Refused|dart_serve: no main¶
/*void main(){}*/|0|Refused|dart_serve: no main¶
-- A declaration that isn't checked yet is not run.
int x=1;void main(){print(1);}|9|Errors|/a.dart:1:1: not_built: Not built.¶
void f(){int = ;}void main(){print(true+1);}|9|Errors|/a.dart:1:1: not_built: Not built.¶/a.dart:1:10: syntax_error: Syntax error.¶/a.dart:1:40: undefined_operator: Undefined operator.¶
«#255»|9|Errors|/a.dart:1:1: file_not_utf8: File not utf8.¶
void main(){}¶//«#128»|9|Errors|/a.dart:1:1: file_not_utf8: File not utf8.¶
«#195»|9|Errors|/a.dart:1:1: file_not_utf8: File not utf8.¶
-- A text has at most 4,194,304 bytes.
void main(){print(1);}«4194282: »|9|Done|1¶
void main(){print(1);}«4194283: »|9|Errors|/a.dart:1:1: profile_file_length: Profile file length.¶
//«2097152:é»|9|Errors|/a.dart:1:1: profile_file_length: Profile file length.¶
¶«#255»«4194304: »|9|Errors|/a.dart:1:1: file_not_utf8: File not utf8.¶
";

// `WORDS|WHY`: words, each behind a blank, that run nothing where `/lib/a.txt` is the one file: what is
// written is how the program is used, that there is no such library, or that it is no packages file.
const REFUSED: &str = "
|usage
 --help|usage
 Serve|usage
 serve serve|usage
 serve /a.dart|usage
 serve --packages|usage
 serve --packages a.json|usage
 serve --package /lib/a.txt|usage
 serve /lib/a.txt --packages|usage
 serve --packages /lib/a.txt 1|usage
 run --packages /lib/a.txt|usage
 run|usage
 run a.dart|usage
 run |usage
 run /b/../a.dart|usage
 run //a.dart|usage
 run /./a.dart|usage
 run /a.dart/|usage
 run /a.dart --steps|usage
 run /a.dart 1|usage
 run /a.dart --steps x|usage
 run /a.dart --steps |usage
 run /a.dart --steps +1|usage
 run /a.dart --steps 1000000000000000|usage
 run /a.dart --step 1|usage
 run /a.dart --steps 1 1|usage
-- The words are a command, and there is no library of the name.
 run /lib/a.txt|no library
 run /lib|no library
 run /|no library
 run /a.dart|no library
 run /lib/a.txt/b.dart --steps 1|no library
-- They are, and there is no packages file of the name.
 serve --packages /lib/a.txt|no packages
 serve --packages /lib|no packages
 serve --packages /|no packages
 serve --packages /lib/b.json|no packages
";

/// Whether the run of a text, as `/a.dart`, ends with this status and writes this.
fn runs(
    alloc: Global,
    text: &str,
    options: &str,
    status: &str,
    output: &str,
) -> Result<bool, Fail> {
    let words = format!(in alloc; " run /a.dart{options}")?;
    let run = Run {
        words: &words,
        fails: "",
        file: ("/a.dart", text),
    };
    let output = bytes_in(alloc, output)?;
    ends(alloc, run, Vec::new(alloc), status, &output)
}

/// Whether a program ends in the steps of its line, and prints what that says.
fn is_program(alloc: Global, line: &str) -> Result<bool, Fail> {
    let (text, line) = cell(line)?;
    let (steps, output) = cell(line)?;
    let options = format!(in alloc; " --steps {steps}")?;
    Ok(runs(alloc, text, "", "Done", output)? && runs(alloc, text, &options, "Done", output)?)
}

/// Whether the program doesn't end in one step fewer, and has printed the same by then.
fn takes_all_steps(alloc: Global, line: &str) -> Result<bool, Fail> {
    let (text, line) = cell(line)?;
    let (steps, output) = cell(line)?;
    let fewer = steps.parse::<u64>()?.saturating_sub(1);
    let options = format!(in alloc; " --steps 00{fewer}")?;
    let output = format!(in alloc; "{output}steps spent¶")?;
    runs(alloc, text, &options, "StepsSpent", &output)
}

/// Whether a file is run as its line says.
fn is_run(alloc: Global, line: &str) -> Result<bool, Fail> {
    let (text, line) = cell(line)?;
    let (steps, line) = cell(line)?;
    let (status, output) = cell(line)?;
    let options = format!(in alloc; " --steps {steps}")?;
    runs(alloc, text, &options, status, output)
}

#[test]
fn files_are_run(rt: HostRuntime) -> Result<(), Fail> {
    let alloc = rt.alloc();
    for line in PROGRAMS.lines() {
        assert!(rt; is_comment(line) || is_program(alloc, line)?, "{line}");
        assert!(rt; is_comment(line) || takes_all_steps(alloc, line)?, "{line}");
    }
    for line in RUNS.lines() {
        assert!(rt; is_comment(line) || is_run(alloc, line)?, "{line}");
    }
    Ok(())
}

/// What is written where words run nothing.
fn refusal(why: &str) -> Result<&'static [u8], Fail> {
    match why {
        "usage" => Ok(b"usage: dart_serve serve|check FILE|run FILE|make N [options]\n"),
        "no library" => Ok(b"dart_serve: no such library\n"),
        "no packages" => Ok(b"dart_serve: packages refused\n"),
        _ => Err("no reason to run nothing".into()),
    }
}

/// Whether the words of a line run nothing.
fn is_refused(alloc: Global, line: &str) -> Result<bool, Fail> {
    let (words, why) = cell(line)?;
    let run = Run {
        words,
        fails: "",
        file: ("/lib/a.txt", "void main(){}"),
    };
    ends(alloc, run, Vec::new(alloc), "Refused", refusal(why)?)
}

#[test]
fn other_words_run_nothing(rt: HostRuntime) -> Result<(), Fail> {
    for line in REFUSED.lines() {
        assert!(rt; is_comment(line) || is_refused(rt.alloc(), line)?, "{line}");
    }
    Ok(())
}
