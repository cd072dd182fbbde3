//! Simulated annealing (Kirkpatrick, Gelatt and Vecchi, Optimization by Simulated Annealing, 1983)
//! of exchanges between groups.

use crate::arrangement::Arrangement;
use crate::draws::Draws;
use crate::energy::UNIT;
use crate::forms::Best;
use crate::numbers::signed;
use crate::table::Table;
use bank_tables::ItemSet;
use series_tree::Memory;
use std::alloc::Global;

/// The last temperature.
const COLD: i64 = 2_400;

/// Temperatures of a run, at most; each is a 17th part less than the one before.
const TEMPERATURES: u32 = 220;

/// Moves for each item of the series after which no more gain is waited for.
const PATIENCE: u64 = 40_000;

/// Moves of a search, at most.
const MOST_MOVES: u64 = 12_000_000;

/// One of so many moves is of a whole passage.
const PASSAGE_MOVES: u64 = 8;

/// On a bank that is not small a search has so many times the moves and the patience.
const LARGE: u64 = 4;

/// Tries of a split, at most.
const SPLITS: u32 = 7;

/// The same on a small bank, where the relaxation of the forms can go on.
const FEW_SPLITS: u32 = 5;

/// The items of a set, in an order that is drawn.
fn shuffled(alloc: Global, items: &ItemSet, draws: &mut Draws) -> Result<Vec<u16>, Memory> {
    let mut list = Vec::new(alloc);
    let mut next = 0;
    for _ in 0..512 {
        let Some(item) = items.first_from(next) else {
            break;
        };
        next = item + 1;
        list.push((draws.bits(), item))?;
    }
    list.sort_unstable_by_key(|pair| pair.0);
    let mut order = Vec::new(alloc);
    for pair in list.as_slice() {
        order.push(pair.1)?;
    }
    Ok(order)
}

/// An arrangement in groups of these sizes, the rest being left, in an order that is drawn.
fn drawn_groups(
    alloc: Global,
    table: &Table,
    items: &ItemSet,
    times: &[i64],
    draws: &mut Draws,
) -> Result<Arrangement, Memory> {
    let mut arrangement = Arrangement::empty(alloc, table, times)?;
    let order = shuffled(alloc, items, draws)?;
    let mut group = 0usize;
    let mut left = table
        .length
        .wrapping_mul(times.first().copied().unwrap_or(0));
    for item in order.as_slice() {
        for _ in 0..4 {
            if left > 0 || group >= times.len() {
                break;
            }
            group = group.wrapping_add(1);
            left = table
                .length
                .wrapping_mul(times.get(group).copied().unwrap_or(0));
        }
        arrangement.put(table, *item, group)?;
        left = left.wrapping_sub(1);
    }
    Ok(arrangement)
}

/// The arrangement of a series, the other items being left.
fn known_groups(
    alloc: Global,
    table: &Table,
    items: &ItemSet,
    times: &[i64],
    best: &Best,
) -> Result<Arrangement, Memory> {
    let mut arrangement = Arrangement::empty(alloc, table, times)?;
    let mut next = 0;
    for _ in 0..512 {
        let Some(item) = items.first_from(next) else {
            break;
        };
        next = item + 1;
        let form = best.forms.iter().position(|form| form.has(item));
        arrangement.put(table, item, form.unwrap_or(times.len()))?;
    }
    Ok(arrangement)
}

/// A run of an annealing: how many moves were made, and after how many of them the last gain came.
#[derive(Clone, Copy)]
struct Course {
    moves: u64,
    gained: u64,
}

impl Course {
    /// Whether no more gain is waited for.
    fn is_over(&self, table: &Table) -> bool {
        let size = u64::try_from(table.pool_length()).unwrap_or(0);
        let times = if table.is_small() { 1 } else { LARGE };
        let patience = PATIENCE.wrapping_mul(size).wrapping_mul(times);
        let most = MOST_MOVES.wrapping_mul(times);
        self.moves > self.gained.wrapping_mul(4).wrapping_add(patience) || self.moves > most
    }
}

/// Moves at one temperature. A series that is better than the best one is taken.
fn moves_at(
    arrangement: &mut Arrangement,
    table: &Table,
    best: &mut Best,
    course: &mut Course,
    draws: &mut Draws,
    temperature: i64,
    count: u64,
) {
    for _ in 0..count {
        course.moves = course.moves.wrapping_add(1);
        let of_passage = !table.bounds.is_empty() && course.moves % PASSAGE_MOVES == 0;
        let made = if of_passage {
            arrangement.step_of_passage(table, draws, temperature)
        } else {
            arrangement.step(table, draws, temperature)
        };
        if made && arrangement.is_sound() && arrangement.least(table) > best.value {
            let known = best.value;
            best.offer(table, &arrangement.sets());
            if best.value > known {
                course.gained = course.moves;
            }
        }
    }
}

/// One run from a temperature down, towards a goal of each form.
fn run(
    arrangement: &mut Arrangement,
    table: &Table,
    best: &mut Best,
    course: &mut Course,
    draws: &mut Draws,
    hot: i64,
    goal: i64,
    count: u64,
) {
    arrangement.set_goal(table, goal);
    let mut temperature = hot;
    for _ in 0..TEMPERATURES {
        if temperature < COLD || course.is_over(table) || best.value >= goal {
            break;
        }
        moves_at(arrangement, table, best, course, draws, temperature, count);
        temperature = temperature.wrapping_sub(temperature / 17);
    }
}

/// The goal and the first temperature of a run by its number.
fn plan_of(best: &Best, top: i64, number: u64) -> (i64, i64) {
    let gap = top.saturating_sub(best.value);
    let goal = match number % 3 {
        _ if best.value < 0 && number % 2 == 1 => 0,
        _ if best.value < 0 => top,
        0 => top,
        1 => best.value.saturating_add(1),
        _ => best.value.saturating_add(1).saturating_add(gap / 3),
    };
    let part = match number % 4 {
        0 => 7,
        1 => 3,
        _ => 2,
    };
    let hot = UNIT.wrapping_mul(part) / 10;
    (goal, hot.wrapping_mul(hot))
}

/// Looks for series with items of a set, up to a value that none exceeds.
pub fn anneal(
    alloc: Global,
    table: &Table,
    best: &mut Best,
    items: &ItemSet,
    top: i64,
    draws: &mut Draws,
) -> Result<(), Memory> {
    if (items.count() as i64) < table.pool_length() {
        return Ok(());
    }
    let times = Vec::from_elem(alloc, 1i64, table.forms)?;
    let mut course = Course {
        moves: 0,
        gained: 0,
    };
    let mut count = 100u64.wrapping_mul(table.forms as u64);
    for number in 0..200u64 {
        if best.value >= top || course.is_over(table) {
            break;
        }
        let (goal, hot) = plan_of(best, top, number);
        let mut arrangement = if number % 4 == 0 || best.value < 0 {
            drawn_groups(alloc, table, items, times.as_slice(), draws)?
        } else {
            known_groups(alloc, table, items, times.as_slice(), best)?
        };
        run(
            &mut arrangement,
            table,
            best,
            &mut course,
            draws,
            hot,
            goal,
            count,
        );
        if number % 3 == 2 {
            count = count.wrapping_mul(2);
        }
    }
    Ok(())
}

/// Two parts of a pool that reach a goal of each form, the first of so many forms; None where none
/// is found.
fn halves(
    alloc: Global,
    table: &Table,
    pool: &ItemSet,
    forms: i64,
    goal: i64,
    draws: &mut Draws,
) -> Result<Option<(ItemSet, ItemSet)>, Memory> {
    let first = forms / 2;
    let times = [first, forms.wrapping_sub(first)];
    let tries = if table.is_small() { FEW_SPLITS } else { SPLITS };
    for number in 0..tries {
        let mut arrangement = drawn_groups(alloc, table, pool, &times, draws)?;
        arrangement.set_goal(table, goal);
        let count = 500u64.wrapping_mul(1u64 << number.min(6));
        if cool(&mut arrangement, table, draws, count) {
            let sets = arrangement.sets();
            return Ok(Some((sets[0], sets[1])));
        }
    }
    Ok(None)
}

/// Whether an arrangement that is cooled down meets all goals.
fn cool(arrangement: &mut Arrangement, table: &Table, draws: &mut Draws, count: u64) -> bool {
    let hot = UNIT.wrapping_mul(4) / 10;
    let mut temperature = hot.wrapping_mul(hot);
    for _ in 0..TEMPERATURES {
        if temperature < COLD / 8 {
            break;
        }
        for _ in 0..count {
            if arrangement.step(table, draws, temperature) && arrangement.is_met() {
                return true;
            }
        }
        temperature = temperature.wrapping_sub(temperature / 17);
    }
    arrangement.is_met()
}

/// The forms of a pool that each reach a goal, by halves; None where none are found.
pub fn split(
    alloc: Global,
    table: &Table,
    pool: &ItemSet,
    goal: i64,
    draws: &mut Draws,
) -> Result<Option<[ItemSet; 4]>, Memory> {
    let mut forms = [ItemSet::empty(); 4];
    let mut made = 0usize;
    let mut waiting = Vec::new(alloc);
    waiting.push((*pool, signed(table.forms)))?;
    for _ in 0..8 {
        let Some((items, count)) = waiting.pop() else {
            break;
        };
        if count <= 1 {
            if let Some(form) = forms.get_mut(made) {
                *form = items;
            }
            made = made.wrapping_add(1);
            continue;
        }
        match halves(alloc, table, &items, count, goal, draws)? {
            Some((first, other)) => {
                waiting.push((other, count.wrapping_sub(count / 2)))?;
                waiting.push((first, count / 2))?;
            }
            None => return Ok(None),
        }
    }
    Ok(Some(forms))
}
