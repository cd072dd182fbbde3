//! The rows of the worked banks. Each item has two response categories.

ghost use Rattle.std.specs.Prelude.{◌≡◌, ◌<◌, [], IfOk, map};
ghost use Rattle.form_model.proofs.BankA.{bank_a};
ghost use Rattle.form_model.proofs.BankS.{bank_s};
ghost use Rattle.form_model.proofs.BankE.{bank_e};
ghost use Rattle.form_model.proofs.BankQ.{bank_q};
ghost use Rattle.trial_cases.specs.Rows.{two_categories, points_l, stimulus_l, info_l, loglik_l, item_l, bank_l};

use bank_tables::{ItemRow, List, Rows};
use std::alloc::{AllocError, Global};

/// An item of two response categories.
pub fn item(
    alloc: Global,
    stimulus: u32,
    quantities: &[u32],
    info: &[u32],
    loglik: &[i32],
) -> Result<ItemRow, AllocError>
    ensures { IfOk result (λ r. r ≡ two_categories stimulus quantities.now info.now loglik.now) }
{
    Ok(ItemRow {
        stimulus,
        categories: 2,
        quantities: List::of(quantities.to_vec(alloc)?),
        info: List::of(info.to_vec(alloc)?),
        loglik: List::of(loglik.to_vec(alloc)?),
    })
}

/// What is written down of an item of two response categories: its stimulus, quantities,
/// information and log-likelihoods.
type Line<'a> = (u32, &'a [u32], &'a [u32], &'a [i32]);

/// The items that these lines describe.
fn items_of(alloc: Global, lines: &[Line<'_>]) -> Result<Vec<ItemRow>, AllocError>
    ensures { IfOk result (λ v. v.items ≡ map (λ line.
        two_categories line.0 line.1.now line.2.now line.3.now) lines.now) }
{
    let mut items = Vec::new(alloc);
    for line in lines {
        let (stimulus, quantities, info, loglik) = *line;
        items.push(item(alloc, stimulus, quantities, info, loglik)?)?;
    }
    Ok(items)
}

/// The rows of items on a grid of so many points, with so many quantities.
pub fn rows_of(grid: u32, quantities: u32, items: Vec<ItemRow>) -> Rows
    ensures { result ≡ record { grid = grid; quantities = quantities; items = items.items } }
{
    Rows {
        grid,
        quantities,
        items: List::of(items),
    }
}

const FLAT_A: [i32; 6] = [-7, -7, -7, -7, -7, -7];

/// The items of bank A.
const LINES_A: [Line<'static>; 6] = [
    (0, &[], &[9, 5, 1], &FLAT_A),
    (0, &[], &[7, 8, 2], &FLAT_A),
    (0, &[], &[4, 9, 3], &[-7, -7, -7, -30, -15, -1]),
    (0, &[], &[2, 6, 8], &FLAT_A),
    (0, &[], &[1, 4, 9], &[0, -1, -20, -7, -7, -7]),
    (0, &[], &[3, 7, 5], &FLAT_A),
];

/// Bank A: six items without stimulus, three points.
#[tactic(auto, unfolding(form_model::proofs::BankA::bank_a, form_model::proofs::BankA::item_a, form_model::proofs::BankA::sevens))]
pub fn rows_a(alloc: Global) -> Result<Rows, AllocError>
    ensures { IfOk result (λ b. b ≡ bank_a) }
{
    Ok(rows_of(3, 0, items_of(alloc, &LINES_A)?))
}

const FLAT_S: [i32; 4] = [-1, -1, -1, -1];

/// The items of bank S.
const LINES_S: [Line<'static>; 5] = [
    (1, &[], &[9, 1], &FLAT_S),
    (1, &[], &[3, 1], &FLAT_S),
    (1, &[], &[2, 90], &FLAT_S),
    (0, &[], &[8, 1], &[-1, -1, -9, -1]),
    (0, &[], &[7, 1], &FLAT_S),
];

/// Bank S: five items, two points; items 0, 1 and 2 have stimulus 1.
#[tactic(auto, unfolding(form_model::proofs::BankS::bank_s, form_model::proofs::BankS::item_s, form_model::proofs::BankS::ones))]
pub fn rows_s(alloc: Global) -> Result<Rows, AllocError>
    ensures { IfOk result (λ b. b ≡ bank_s) }
{
    Ok(rows_of(2, 0, items_of(alloc, &LINES_S)?))
}

const FLAT_E: [i32; 2] = [-1, -1];

/// The items of bank E.
const LINES_E: [Line<'static>; 5] = [
    (0, &[], &[10], &FLAT_E),
    (0, &[], &[9], &FLAT_E),
    (0, &[], &[8], &FLAT_E),
    (0, &[], &[2], &FLAT_E),
    (0, &[], &[1], &FLAT_E),
];

/// Bank E: five items without stimulus, one point.
#[tactic(auto, unfolding(form_model::proofs::BankE::bank_e, form_model::proofs::BankE::item_e))]
pub fn rows_e(alloc: Global) -> Result<Rows, AllocError>
    ensures { IfOk result (λ b. b ≡ bank_e) }
{
    Ok(rows_of(1, 0, items_of(alloc, &LINES_E)?))
}

/// The items of bank Q.
const LINES_Q: [Line<'static>; 4] = [(0, &[10], &[5], &[-1, -1]); 4];

/// Bank Q: four items without stimulus, one point; each has 10 of the one quantity.
#[tactic(auto, unfolding(form_model::proofs::BankQ::bank_q, form_model::proofs::BankQ::item_q))]
pub fn rows_q(alloc: Global) -> Result<Rows, AllocError>
    ensures { IfOk result (λ b. b ≡ bank_q) }
{
    Ok(rows_of(1, 1, items_of(alloc, &LINES_Q)?))
}

/// The stimulus of an item of bank L.
fn stimulus_l(i: u32) -> u32
    ensures { result ≡ stimulus_l i }
{
    let (ten, rest) = (i / 10, i % 10);
    if ten < 6 && rest < 2 { ten + 1 } else { 0 }
}

/// The information of an item of bank L at a point.
fn info_l(i: u32, point: u32) -> u32
    requires item { i < 120 }
    requires point { point < 7 }
    ensures { result ≡ info_l i point }
{
    500 * (11 - i / 10) + 100 * (9 - i % 10) + 3 * ((i + point) % 7)
}

/// The log-likelihood of a response to an item of bank L at a point.
fn loglik_l(i: u32, response: u32, point: u32) -> i32
    requires item { i < 120 }
    requires response { response < 2 }
    requires point { point < 7 }
    ensures { result ≡ loglik_l i response point }
{
    -(1 + ((7 * i + 3 * response + 5 * point) % 11) as i32)
}

/// The information of an item of bank L at each point.
fn infos_l(i: u32) -> [u32; 7]
    requires { i < 120 }
    ensures { result ≡ map (info_l i) points_l }
{
    [
        info_l(i, 0),
        info_l(i, 1),
        info_l(i, 2),
        info_l(i, 3),
        info_l(i, 4),
        info_l(i, 5),
        info_l(i, 6),
    ]
}

/// The log-likelihood of a response to an item of bank L at each point.
fn logliks_l(i: u32, response: u32) -> [i32; 7]
    requires item { i < 120 }
    requires response { response < 2 }
    ensures { result ≡ map (loglik_l i response) points_l }
{
    [
        loglik_l(i, response, 0),
        loglik_l(i, response, 1),
        loglik_l(i, response, 2),
        loglik_l(i, response, 3),
        loglik_l(i, response, 4),
        loglik_l(i, response, 5),
        loglik_l(i, response, 6),
    ]
}

/// Item `i` of bank L.
#[tactic(auto, unfolding(crate::specs::Rows::item_l))]
fn item_l(alloc: Global, i: u32) -> Result<ItemRow, AllocError>
    requires { i < 120 }
    ensures { IfOk result (λ r. r ≡ item_l i) }
{
    let mut loglik = logliks_l(i, 0).to_vec(alloc)?;
    loglik.extend_from_slice(&logliks_l(i, 1))?;
    item(alloc, stimulus_l(i), &[60], &infos_l(i), &loglik)
}

/// Bank L: 120 items, seven points, one quantity, six stimuli.
#[tactic(auto, unfolding(crate::specs::Rows::bank_l))]
pub fn rows_l(alloc: Global) -> Result<Rows, AllocError>
    ensures { IfOk result (λ b. b ≡ bank_l) }
{
    let mut items = Vec::new(alloc);
    for i in 0..120u32 {
        items.push(item_l(alloc, i)?)?;
    }
    Ok(rows_of(7, 1, items))
}
