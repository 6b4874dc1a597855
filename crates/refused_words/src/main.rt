//! Words that are no command of `dart_serve`: the usage line, and status 2.
#![tactic(auto)]

use std::process::ExitCode;

fn main(rt: HostRuntime) -> ExitCode {
    dart_server::on_host(&rt)
}
