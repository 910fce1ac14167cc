// Runs scripts of library calls from standard input and prints how many agreed with their expected answers.
#![tactic(auto)]

mod answer;
mod call;
mod desk;
mod level;
mod rack;
mod recipe;
mod tally;

use crate::tally::Tally;
use std::io::{BufRead, BufReader};

fn run(rt: &HostRuntime) -> anyhow::Result<()> {
    let heap = rt.alloc();
    let mut tally = Tally::new(heap);
    for line in BufReader::new(heap, rt.stdin())?.lines(heap) {
        tally.line(line?.as_str())?;
    }
    rt.println(tally)?;
    Ok(())
}

fn main(rt: HostRuntime) -> anyhow::Result<()> {
    run(&rt)
}
