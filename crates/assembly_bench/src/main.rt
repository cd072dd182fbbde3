//! The program `assembly_bench`: it times the assembler and the separate checker by the system's
//! clock. `steps BANK PLAN RESPONSES` serves a session with the given responses and prints a line
//! for each step; with the word `trees` also what rebuilds the step and judges its tree, and with
//! `without ITEMS` after it those items aren't eligible. `warm` does the same, and the search of
//! each step begins with the first vector of the tree of the step before. `check ITEMS ROWS STIMULI
//! NODES` makes a problem and proof trees of these sizes and times the checker on them; with the
//! word `quiet` it prints no times. It is proved safe, and promises nothing on time.
#![tactic(auto)]

mod bank;
mod checking;
mod command;
mod form;
mod line;
mod plan;
mod reading;
mod seat;
mod size;
mod steps;
mod tree;
mod vector;
mod warm;

use anyhow::{Result, bail};
use checking::time_checks;
use command::Command;
use std::env;
use steps::time_steps;

fn main(rt: HostRuntime) -> Result<()> {
    let words: Vec<String> = env::args(&rt)?.skip(1).collect(rt.alloc())?;
    match Command::of(&words) {
        Some(Command::Check(trial)) => time_checks(&rt, &trial),
        Some(Command::Steps(order)) => time_steps(&rt, &order),
        None => {
            bail!(
                "usage: assembly_bench steps|warm BANK PLAN RESPONSES [trees [without ITEMS]] | check ITEMS ROWS STIMULI NODES [quiet]"
            )
        }
    }
}
