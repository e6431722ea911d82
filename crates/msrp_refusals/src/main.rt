//! Single calls for the test that refuses memory or threads one by one; each argument names one.
#![tactic(auto)]

mod steps;
mod turns;

use msrp_cli::words_of;
use std::process::ExitCode;
use std::sync::Wait;
use std::thread::Threads;

// Makes the calls that the arguments name, in turn.
fn called<T: Threads + Wait + Sync>(rt: &HostRuntime, threads: &T) -> Result<(), &'static str> {
    let words = words_of(rt).map_err(|_| "memory")?;
    for word in words.iter().skip(1) {
        match word.as_str() {
            "board" => steps::worked(rt, rt.alloc())?,
            "run" => turns::counted(rt, threads, rt.alloc())?,
            _ => return Err("usage"),
        }
    }
    Ok(())
}

fn main(rt: HostRuntime) -> ExitCode {
    match called(&rt, &rt) {
        Ok(()) => ExitCode::SUCCESS,
        Err(what) => {
            let _ = eprintln!(rt; "{what}");
            ExitCode::FAILURE
        }
    }
}
