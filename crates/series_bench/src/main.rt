//! The program `series_bench`: `series_bench BANK PLAN K WEIGHTS` looks for a series of K forms,
//! WEIGHTS being numbers parted by commas, and prints it with its tree and the bound of all series.
//! With the word `plain` before them the tree has only what `series_check` judges; with `quiet` no
//! tree is printed. It is proved safe. What it prints is not tested here: judge it by
//! `tools/check_series.py BANK PLAN K WEIGHTS --printed FILE`.
#![tactic(auto)]

use anyhow::{Context, Result, bail};
use bank_reader::{ReadFault, read_bank};
use bank_tables::{Bank, ItemSet, List};
use constraint_model::Spec;
use exam_edge::MemorySource;
use series_search::{Kinds, Searched, search};
use series_tree::{SeriesTree, encode_series, has_open_leaf};
use spec_reader::{PlanFault, read_plan};
use std::alloc::Global;
use std::rt::Files;
use std::{env, fs};

/// The bytes of the file of this name.
fn bytes_in<R: Files + AllocGlobal>(rt: &R, name: &str) -> Result<Vec<u8>> {
    fs::read(rt, name).context(format_args!("reading {name}"))
}

/// The bank that the bytes are.
fn bank_of(alloc: Global, bytes: Vec<u8>) -> Result<Bank, ReadFault> {
    let mut source = MemorySource::of(bytes, Vec::new(alloc));
    read_bank(alloc, &mut source)
}

/// The plan that the bytes are.
fn plan_of(alloc: Global, bank: &Bank, bytes: Vec<u8>) -> Result<Spec, PlanFault> {
    let mut source = MemorySource::of(bytes, Vec::new(alloc));
    read_plan(alloc, bank, &mut source)
}

/// The numbers of a word, parted by commas.
fn weights_of(alloc: Global, word: &str) -> Result<Vec<u32>> {
    let mut weights = Vec::new(alloc);
    for part in word.split(',') {
        match part.parse::<u32>() {
            Ok(weight) if weight <= 1_000 => weights.push(weight)?,
            _ => bail!("no weights: {word}"),
        }
    }
    Ok(weights)
}

/// The items of a form as words.
fn print_form<R: Print + AllocGlobal>(rt: &R, form: &ItemSet) -> Result<()> {
    let mut text = String::new(rt.alloc());
    text.push_str("form")?;
    let mut next = 0;
    for _ in 0..512 {
        let Some(item) = form.first_from(next) else {
            break;
        };
        next = item + 1;
        let word = format!(in rt.alloc(); " {item}")?;
        text.push_str(word.as_str())?;
    }
    println!(rt; "{text}")?;
    Ok(())
}

/// A tree in lower-case hexadecimal.
fn tree_text(alloc: Global, tree: &SeriesTree) -> Result<String> {
    let bytes = encode_series(alloc, tree)?;
    Ok(hex::encode(alloc, bytes)?)
}

/// The least weighted information of a form.
fn least_of(bank: &Bank, weights: &[u32], form: &ItemSet) -> u64 {
    let mut least = u64::MAX;
    for point in 0..bank.grid() {
        let weight = weights.get(point as usize).copied().unwrap_or(0) as u64;
        if weight > 0 {
            least = least.min(sum_of(bank, form, point).saturating_mul(weight));
        }
    }
    least
}

/// The information of a form at a point.
fn sum_of(bank: &Bank, form: &ItemSet, point: u8) -> u64 {
    let mut sum = 0u64;
    for item in 0..bank.items() {
        if form.has(item) && point < bank.grid() {
            sum = sum.saturating_add(bank.info(item, point) as u64);
        }
    }
    sum
}

/// The least of the forms of a series.
fn value_of(bank: &Bank, weights: &[u32], forms: &List<ItemSet>) -> u64 {
    let mut value = u64::MAX;
    for form in forms.as_slice() {
        value = value.min(least_of(bank, weights, form));
    }
    value
}

/// Prints the lines of a series.
fn print_series<R: Print + AllocGlobal>(
    rt: &R,
    bank: &Bank,
    weights: &[u32],
    forms: &List<ItemSet>,
    tree: &SeriesTree,
    is_quiet: bool,
) -> Result<bool> {
    let value = value_of(bank, weights, forms);
    let proved = !has_open_leaf(tree.nodes());
    let mark = if proved { "proved" } else { "unproved" };
    let count = forms.as_slice().len();
    let nodes = tree.nodes().len();
    println!(rt; "series {count} value {value} {mark} nodes {nodes}")?;
    for form in forms.as_slice() {
        print_form(rt, form)?;
    }
    if !is_quiet {
        let text = tree_text(rt.alloc(), tree)?;
        println!(rt; "tree {text}")?;
    }
    Ok(proved)
}

/// Prints what a search found.
fn print_found<R: Print + AllocGlobal>(
    rt: &R,
    bank: &Bank,
    weights: &[u32],
    found: &Searched,
    is_quiet: bool,
) -> Result<()> {
    let Some(tree) = &found.tree else {
        bail!("the search built no tree");
    };
    let Some(forms) = &found.forms else {
        let text = tree_text(rt.alloc(), tree)?;
        if has_open_leaf(tree.nodes()) {
            let nodes = tree.nodes().len();
            println!(rt; "no series in {nodes} nodes {text}")?;
        } else {
            println!(rt; "no series {text}")?;
        }
        return Ok(());
    };
    let proved = print_series(rt, bank, weights, forms, tree, is_quiet)?;
    if let (Some(bound), false) = (&found.bound, proved || is_quiet) {
        let text = tree_text(rt.alloc(), &bound.tree)?;
        let value = bound.value;
        println!(rt; "at most {value} tree {text}")?;
    }
    Ok(())
}

fn main(rt: HostRuntime) -> Result<()> {
    let words: Vec<String> = env::args(&rt)?.skip(1).collect(rt.alloc())?;
    let (words, kinds, is_quiet) = match words.as_slice() {
        [word, rest @ ..] if word.as_str() == "judged" => (rest, Kinds::judged(), false),
        [word, rest @ ..] if word.as_str() == "plain" => (
            rest,
            Kinds {
                pool: false,
                thresholds: false,
                uses: false,
                twins: true,
            },
            false,
        ),
        [word, rest @ ..] if word.as_str() == "quiet" => (rest, Kinds::all(), true),
        all => (all, Kinds::all(), false),
    };
    let [bank, plan, forms, weights] = words else {
        bail!("usage: series_bench [plain|quiet] BANK PLAN K WEIGHTS");
    };
    let forms = match forms.as_str().parse::<u8>() {
        Ok(forms) if 1 <= forms && forms <= 4 => forms,
        _ => bail!("K is from 1 to 4"),
    };
    let weights = weights_of(rt.alloc(), weights.as_str())?;
    let bank = match bank_of(rt.alloc(), bytes_in(&rt, bank.as_str())?) {
        Ok(bank) => bank,
        Err(fault) => bail!("bank: {fault:?}"),
    };
    let spec = match plan_of(rt.alloc(), &bank, bytes_in(&rt, plan.as_str())?) {
        Ok(spec) => spec,
        Err(fault) => bail!("plan: {fault:?}"),
    };
    let budget = u16::try_from(spec.base_budget()).unwrap_or(4_095);
    let weights = weights.as_slice();
    let found = search(rt.alloc(), &bank, &spec, weights, forms, budget, kinds)?;
    print_found(&rt, &bank, weights, &found, is_quiet)
}
