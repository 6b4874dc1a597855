//! `dart_serve`: an analysis server for Dart. What it does stands in the library `dart_server`.
//!
//! The run that is stored beside it (`args`, `data/`, and what comes of them in `stdout` and
//! `status`) is one of a file whose steps are spent, so that its status isn't 0; what is served
//! stands beside `session`.
#![tactic(auto)]

use std::process::ExitCode;

fn main(rt: HostRuntime) -> ExitCode {
    dart_server::on_host(&rt)
}
