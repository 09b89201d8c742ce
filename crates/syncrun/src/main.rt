//! Reads a script on standard input and prints what its commands are answered.
#![tactic(auto)]

use esync_script::script;
use std::process::ExitCode;

fn main(rt: HostRuntime) -> ExitCode {
    ExitCode::from(script(rt.alloc(), rt.stdin(), rt.stdout(), rt.stderr()))
}
