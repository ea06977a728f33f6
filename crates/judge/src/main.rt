// `judge FILE [MARKS]`: are these marks the shortest net?
#![tactic(auto)]

use anyhow::{Context, bail};
use ending::ended;
use graph::edge::WeightedEdge;
use graph::edge_list::EdgeList;
use graph::mark_file::judge;
use graph::valley_file::read;
use std::io::Read;
use std::process::ExitCode;
use std::{env, fs, io};

const USE: &str = "use: judge FILE [MARKS]";

// The graph of a valley file.
fn graph_of(rt: &HostRuntime, path: &str) -> anyhow::Result<EdgeList> {
    let text = fs::read(rt, path)?;
    Ok(read(rt.alloc(), &text)?)
}

// All that comes on standard input.
fn input(rt: &HostRuntime) -> io::Result<Vec<u8>> {
    let mut text = Vec::new(rt.alloc());
    rt.stdin().read_to_end(&mut text)?;
    Ok(text)
}

// Prints `right`, or the shortest line whose mark isn't.
fn report(rt: &HostRuntime, list: &EdgeList, marks: &[u8]) -> anyhow::Result<()> {
    match judge(rt.alloc(), list, marks)? {
        None => println!(rt; "right")?,
        Some(WeightedEdge { a, b, weight }) => println!(rt; "line {a} {b} {weight}")?,
    }
    Ok(())
}

fn run(rt: &HostRuntime) -> anyhow::Result<()> {
    let mut given = env::args(rt)?.skip(1);
    let file = given.next().context(USE)?;
    let marks = given.next();
    if given.next().is_some() {
        bail!(USE);
    }
    let list = graph_of(rt, file.as_str())?;
    let marks = match marks {
        Some(path) => fs::read(rt, path.as_str())?,
        None => input(rt)?,
    };
    report(rt, &list, &marks)
}

fn main(rt: HostRuntime) -> ExitCode {
    ended(&rt, run(&rt))
}
