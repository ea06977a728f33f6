// `box I J:L J:L ..`: the box of one house.
#![tactic(auto)]

mod arguments;
mod command;
mod hexadecimal;
mod house;
mod lamp;
mod reply;
mod report;
mod step;
mod trouble;

use anyhow::Context;
use ending::ended;
use house::House;
use std::env;
use std::io::{BufRead, BufReader};
use std::process::ExitCode;

const USE: &str = "use: box I J:L J:L ..";

// Obeys each line of the input. A line is read as soon as it is there, since who sends it may wait for what it says.
// A buffer serves all lines: no `split`, which makes one for each. A `for`, since a `loop` would want a measure to show that
// it ends, and who writes the input has none.
fn serve(rt: &HostRuntime, mut house: House) -> anyhow::Result<()> {
    let mut input = BufReader::new(rt.alloc(), rt.stdin())?;
    let mut line = Vec::new(rt.alloc());
    for _ in 0..u64::MAX {
        line.clear();
        if input.read_until(b'\n', &mut line)? == 0 {
            break;
        }
        house.obey(rt, &line)?;
    }
    Ok(())
}

fn help(rt: &HostRuntime) -> anyhow::Result<()> {
    println!(rt; "box: the box of one house")?;
    println!(rt; "{USE}")?;
    Ok(())
}

fn run(rt: &HostRuntime) -> anyhow::Result<()> {
    let mut words = env::args(rt)?.skip(1);
    let first = words.next().context(USE)?;
    if first.as_str() == "--help" {
        return help(rt);
    }
    let others: Vec<String> = words.collect(rt.alloc())?;
    serve(rt, House::open(rt, first.as_bytes(), &others)?)
}

fn main(rt: HostRuntime) -> ExitCode {
    ended(&rt, run(&rt))
}
