// The program: all that it does is `rast_cli::rast` over the real files and standard output.
#![tactic(auto)]

use rast_cli::rast;
use rast_io::{DiskFiles, StdSink};
use std::env;
use std::process::ExitCode;

// The words, the program's name first; none where one of them isn't text.
fn words(rt: &HostRuntime) -> Vec<String> {
    let alloc = rt.alloc();
    if let Ok(args) = env::args(rt)
        && let Ok(words) = args.collect(alloc)
    {
        return words;
    }
    Vec::new(alloc)
}

fn main(rt: HostRuntime) -> ExitCode {
    let words = words(&rt);
    let mut files = DiskFiles::new(&rt);
    let mut out = StdSink::new(&rt);
    let exit = rast(rt.alloc(), &words, &mut files, &mut out);
    ExitCode::from(exit.status)
}
