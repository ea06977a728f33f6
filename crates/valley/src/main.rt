// `valley FILE [SCRIPT]`: all boxes of a valley, driven by a script.
#![tactic(auto)]

use anyhow::{Context, bail};
use ending::ended;
use std::env;
use std::process::ExitCode;

const USE: &str = "use: valley FILE [SCRIPT]";

fn run(rt: &HostRuntime) -> anyhow::Result<()> {
    let word = env::args(rt)?.nth(1).context(USE)?;
    if word.as_str() != "--help" {
        bail!("valley: not built yet");
    }
    println!(rt; "valley: all boxes of a valley, driven by a script")?;
    println!(rt; "{USE}")?;
    Ok(())
}

fn main(rt: HostRuntime) -> ExitCode {
    ended(&rt, run(&rt))
}
