//! The program `tandem`: its words, its files and its output, handed to the top call.
#![tactic(auto)]

use std::env;
use std::process::ExitCode;
use tandem_cli::run_program;
use tandem_io::{FileInputs, StdoutSink};

fn main(rt: HostRuntime) -> ExitCode {
    let mut ins = FileInputs::new(&rt);
    let mut out = StdoutSink::new(&rt);
    let status = run_program(rt.alloc(), env::args(&rt), &mut ins, &mut out);
    ExitCode::from(status)
}
