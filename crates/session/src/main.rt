//! A stored session of `dart_serve` (`stdin`, and its replies in `stdout`): the packages file in `data`, and roots around the folder of its package; texts that are given, edited and taken away; texts of every rule, and their errors; small projects, each in a folder of its own, and the errors of their files; roots over the files in `data`; and lines of every form, with their refusals.
#![tactic(auto)]

use std::process::ExitCode;

fn main(rt: HostRuntime) -> ExitCode {
    dart_server::on_host(&rt)
}
