// Clash lists from two texts: reads the schedule and the log from standard input, and prints both lists and what changed.
#![tactic(auto)]

use anyhow::{anyhow, bail};
use clashes::{Separations, clash_lists, read_minutes};
use reports::report;
use std::env;
use std::io::Read;
use std::process::ExitCode;
use verdicts::Minutes;

fn main(rt: HostRuntime) -> anyhow::Result<ExitCode> {
    match run(&rt) {
        Ok(()) => Ok(ExitCode::SUCCESS),
        Err(error) => {
            eprintln!(rt; "clash_lists: {error}")?;
            Ok(ExitCode::FAILURE)
        }
    }
}

fn run(rt: &HostRuntime) -> anyhow::Result<()> {
    let separations = read_arguments(rt)?;
    let mut text = Vec::new(rt.alloc());
    rt.stdin().read_to_end(&mut text)?;
    let lists = clash_lists(rt.alloc(), &text, separations)?;
    let report = report(rt.alloc(), &lists, separations)?;
    print!(rt; "{report}")?;
    Ok(())
}

// Two arguments in minutes; 40 and 90 without them.
fn read_arguments(rt: &HostRuntime) -> anyhow::Result<Separations> {
    let mut args = env::args(rt)?;
    let _program = args.next();
    let Some(first) = args.next() else {
        return Ok(Separations {
            first: minutes("40")?,
            second: minutes("90")?,
        });
    };
    let Some(second) = args.next() else {
        bail!("one separation given: give two, in minutes, or none");
    };
    if args.next().is_some() {
        bail!("more than two separations given: give two, in minutes, or none");
    }
    Ok(Separations {
        first: minutes(first.as_str())?,
        second: minutes(second.as_str())?,
    })
}

fn minutes(text: &str) -> anyhow::Result<Minutes> {
    read_minutes(text.as_bytes()).map_err(|refusal| {
        let number = refusal.number();
        anyhow!("'{text}' is refused with {number}: {refusal}")
    })
}
