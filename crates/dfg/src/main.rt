#![tactic(auto)]

// Reads a log of commands on standard input, runs it and prints the record.
use command_log::command::Command;
use command_log::counts::Counts;
use command_log::expected::Expected;
use command_log::outcome::Line;
use command_log::reading::command_of;
use std::io::{BufRead, BufReader};
use thiserror::Error;

// A line that is no command, and what it should have been.
#[derive(Debug, Drop, Error)]
#[error("line {line}: expected {expected}")]
struct BadLine {
    line: usize,
    expected: Expected,
}

// Blank lines and remarks say nothing.
fn says_nothing(words: &[&str]) -> bool {
    match words {
        [] => true,
        [first, ..] => first.starts_with('#'),
    }
}

// The whole log, so that nothing runs where a line of it is no command.
fn read_log(rt: &HostRuntime) -> anyhow::Result<Vec<Command>> {
    let mut commands = Vec::new(rt.alloc());
    for (index, text) in BufReader::new(rt.alloc(), rt.stdin())?
        .lines(rt.alloc())
        .enumerate()
    {
        let text = text?;
        let line = index.saturating_add(1);
        let words: Vec<&str> = text.as_str().split_whitespace().collect(rt.alloc())?;
        if says_nothing(words.as_slice()) {
            continue;
        }
        let command = command_of(words.as_slice()).map_err(|expected| BadLine { line, expected })?;
        commands.push(command)?;
    }
    Ok(commands)
}

fn work(rt: &HostRuntime) -> anyhow::Result<()> {
    let commands = read_log(rt)?;
    let mut outcomes = Vec::new(rt.alloc());
    for &command in commands.iter() {
        let outcome = command.run();
        rt.println(Line { command, outcome })?;
        outcomes.push(outcome)?;
    }
    rt.println(Counts::of(outcomes.as_slice()))?;
    Ok(())
}

fn main(rt: HostRuntime) -> anyhow::Result<()> {
    work(&rt)
}
