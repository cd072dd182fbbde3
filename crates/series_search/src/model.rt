//! The linear relaxations: of the pool, and of all forms one beside the other.
//!
//! The value of a series is `base + span * t` with a column t from 0 to 1. A line for each point
//! has the weighted information less K times that value (of a form: less the value), divided by a
//! power of two so that it is short. A stimulus has a column for the forms that choose it, and with
//! several forms an item has one for its use.

use crate::multipliers::Multipliers;
use crate::numbers::{add_at, at, short, signed};
use crate::path::Path;
use crate::priced::Priced;
use crate::table::{Limits, Table};
use bank_tables::ItemSet;
use certificate_model::Node;
use multiplier_exchanges::{Columns, Given, PathSets, Relaxation, Vertex, Workspace};
use series_tree::{Memory, SeriesNode};
use std::alloc::Global;

/// The most that an item may add to a line.
const SHORT: i64 = 65_535;

/// Amounts of lines have so many bits after the point; the mean amount of a line is about one.
const FINE: u32 = 10;

/// What one of a line of a point is worth, at most, and the most that the column of the value
/// gains.
const PRICE: i64 = 4_194_304;

const MOST_GAIN: i64 = 274_877_906_944;

/// What a line is of.
#[derive(Clone, Copy)]
enum Meaning {
    Point {
        lane: usize,
        place: usize,
    },
    Row {
        lane: usize,
        row: usize,
    },
    Length {
        lane: usize,
    },
    Use {
        item: usize,
    },
    Bound {
        lane: usize,
        stimulus: usize,
        sign: i64,
    },
    Other,
}

/// A line: what it is of, and how many bits its amounts were raised by.
#[derive(Clone, Copy)]
struct Known {
    meaning: Meaning,
    up: u32,
}

/// A relaxation. Its *lanes* are the forms, or the pool alone.
#[derive(Drop)]
pub struct Model {
    pub relaxation: Relaxation,
    pub room: Workspace,
    known: Vec<Known>,
    pub is_pool: bool,
    lanes: usize,
    /// Whether the items of a stimulus are linked to it.
    has_links: bool,
    /// How many forms a lane has.
    times: i64,
    /// The number of columns of items.
    columns: usize,
    /// The first of the groups that are uses of items.
    uses: usize,
    /// What the value is where its column is 0, divided by a power of two, and that power.
    base: i64,
    span: i64,
    shift: u32,
    price: i64,
}

/// A number divided by a power of two.
fn lowered(number: i64, shift: u32) -> i64 {
    number >> shift.min(40)
}

/// How many bits amounts of a mean are raised by, so that the mean is about one.
fn up_of(mean: i64) -> u32 {
    for up in 0..FINE {
        if mean.max(1) << up >= 1i64 << FINE {
            return up;
        }
    }
    FINE
}

/// The power of two that makes numbers short.
fn shift_of(most: i64) -> u32 {
    for shift in 0..40u32 {
        if lowered(most, shift) <= SHORT {
            return shift;
        }
    }
    40
}

/// A small gain, different for each column, so that no two vertices are alike.
fn tie(model: &Model, table: &Table, number: usize) -> i64 {
    let drawn = signed(number).wrapping_mul(7_919).wrapping_add(13) & 1_023;
    let mean = lowered(table.mean, model.shift).max(1);
    (model.price >> 20)
        .max(1)
        .wrapping_mul(mean)
        .wrapping_mul(drawn.wrapping_add(1))
        >> 10
}

/// The branch on an item in a form.
pub fn form_branch(table: &Table, form: u8, item: u16) -> SeriesNode {
    if table.kinds.twins {
        SeriesNode::Twin { form, item }
    } else {
        SeriesNode::Branch { form, item }
    }
}

impl Model {
    /// The number of groups of stimuli of all lanes and of the value.
    fn stimulus_groups(table: &Table, lanes: usize) -> usize {
        lanes.wrapping_mul(table.bounds.len()).wrapping_add(1)
    }

    /// Whether there is a relaxation of all forms: there are several, and it has few enough
    /// columns.
    pub fn has_forms(table: &Table) -> bool {
        let items = table.items as usize;
        let groups = Model::stimulus_groups(table, table.forms).wrapping_add(items);
        table.forms > 1 && table.is_small() && groups <= 250
    }

    /// The number of the column of an item in a lane.
    fn item_column(&self, table: &Table, lane: usize, item: usize) -> u16 {
        short(lane.wrapping_mul(table.items as usize).wrapping_add(item))
    }

    /// The number of the column of a group.
    fn group_column(&self, group: usize) -> u16 {
        short(self.columns.wrapping_add(group))
    }

    /// The group of a stimulus in a lane.
    fn stimulus_group(table: &Table, lane: usize, stimulus: usize) -> usize {
        lane.wrapping_mul(table.bounds.len()).wrapping_add(stimulus)
    }

    /// How many forms of a lane may choose a stimulus, at least 1.
    fn most_choosing(&self, table: &Table, stimulus: usize) -> i64 {
        let members = table.members_of(stimulus).count() as i64;
        let (low, _) = table.bounds_of(stimulus);
        members
            .checked_div(low.max(1))
            .unwrap_or(1)
            .clamp(1, self.times.max(1))
    }

    /// The columns: items, the value, stimuli, uses.
    fn columns_of(&self, alloc: Global, table: &Table) -> Result<Columns, Memory> {
        let mut columns = Columns {
            items: Vec::new(alloc),
            groups: Vec::new(alloc),
            gains: Vec::new(alloc),
        };
        for number in 0..self.columns {
            columns.items.push(short(number))?;
            columns.gains.push(tie(self, table, number))?;
        }
        let uses = if self.is_pool {
            0
        } else {
            table.items as usize
        };
        for group in 0..self.uses.saturating_add(uses) {
            columns.groups.push(u8::try_from(group).unwrap_or(u8::MAX))?;
            let gain = if group == 0 {
                self.price
                    .wrapping_mul(signed(table.forms))
                    .wrapping_mul(self.span)
            } else {
                0
            };
            columns.gains.push(gain)?;
        }
        Ok(columns)
    }

    /// Adds a line with its meaning; `mean` is that of its amounts.
    fn add_line(
        &mut self,
        alloc: Global,
        cells: &[(u16, i64)],
        low: i64,
        high: Option<i64>,
        mean: i64,
        meaning: Meaning,
    ) -> Result<(), Memory> {
        let up = up_of(mean);
        let mut raised = Vec::new(alloc);
        for (column, amount) in cells {
            raised.push((*column, amount.wrapping_mul(1i64 << up.min(40))))?;
        }
        self.relaxation.add_given(&Given {
            low: low.wrapping_mul(1i64 << up.min(40)),
            high: high.map(|bound| bound.wrapping_mul(1i64 << up.min(40))),
            scale: 1,
            cells: raised.as_slice(),
        })?;
        self.known.push(Known { meaning, up })?;
        Ok(())
    }

    /// Adds the line of a point in a lane.
    fn add_point(
        &mut self,
        alloc: Global,
        table: &Table,
        lane: usize,
        place: usize,
    ) -> Result<(), Memory> {
        let mut cells = Vec::new(alloc);
        for item in 0..table.items as usize {
            let amount = lowered(at(table.info_of(item), place), self.shift);
            if amount != 0 {
                cells.push((self.item_column(table, lane, item), amount))?;
            }
        }
        let less = self.times.wrapping_mul(self.span).wrapping_neg();
        cells.push((self.group_column(0), less))?;
        let low = self.times.wrapping_mul(self.base);
        let scale = lowered(table.mean, self.shift);
        self.add_line(
            alloc,
            cells.as_slice(),
            low,
            None,
            scale,
            Meaning::Point { lane, place },
        )
    }

    /// Adds the line of the length of a form.
    fn add_length(&mut self, alloc: Global, table: &Table, lane: usize) -> Result<(), Memory> {
        let mut cells = Vec::new(alloc);
        for item in 0..table.items as usize {
            cells.push((self.item_column(table, lane, item), 1))?;
        }
        let meaning = Meaning::Length { lane };
        self.add_line(
            alloc,
            cells.as_slice(),
            table.length,
            Some(table.length),
            1,
            meaning,
        )
    }

    /// The cells of a row in a lane, and their sum.
    fn row_cells(
        &self,
        alloc: Global,
        table: &Table,
        lane: usize,
        row: usize,
    ) -> Result<(Vec<(u16, i64)>, i64), Memory> {
        let mut cells = Vec::new(alloc);
        let mut sum = 0i64;
        for item in 0..table.items as usize {
            for part in table.parts_of(item) {
                if part.row == row {
                    cells.push((self.item_column(table, lane, item), part.amount))?;
                    sum = sum.wrapping_add(part.amount);
                }
            }
        }
        Ok((cells, sum))
    }

    /// The cells of a row on stimuli in a lane, and their sum.
    fn stimulus_cells(
        &self,
        alloc: Global,
        table: &Table,
        lane: usize,
    ) -> Result<(Vec<(u16, i64)>, i64), Memory> {
        let mut cells = Vec::new(alloc);
        let mut sum = 0i64;
        for stimulus in 1..table.bounds.len().saturating_add(1) {
            let group = Model::stimulus_group(table, lane, stimulus);
            let most = self.most_choosing(table, stimulus);
            cells.push((self.group_column(group), most))?;
            sum = sum.wrapping_add(most);
        }
        Ok((cells, sum))
    }

    /// Adds the line of a row in a lane, unless whatever is chosen meets it.
    fn add_row(
        &mut self,
        alloc: Global,
        table: &Table,
        lane: usize,
        row: usize,
        limits: &Limits,
    ) -> Result<(), Memory> {
        let (cells, sum) = if limits.of_stimuli {
            self.stimulus_cells(alloc, table, lane)?
        } else {
            self.row_cells(alloc, table, lane, row)?
        };
        let low = limits.low.wrapping_mul(self.times);
        let high = limits.high.wrapping_mul(self.times);
        if cells.is_empty() || low <= 0 && high >= sum {
            return Ok(());
        }
        let high = if high >= sum { None } else { Some(high) };
        let meaning = Meaning::Row { lane, row };
        self.add_line(alloc, cells.as_slice(), low, high, limits.scale, meaning)
    }

    /// Adds the lines of the rows of the plan in a lane.
    fn add_rows(&mut self, alloc: Global, table: &Table, lane: usize) -> Result<(), Memory> {
        let mut row = 0usize;
        for limits in table.rows.as_slice() {
            self.add_row(alloc, table, lane, row, limits)?;
            row = row.wrapping_add(1);
        }
        Ok(())
    }

    /// Adds the line of a bound of a stimulus in a lane: the lower one for the sign 1, the upper
    /// one for -1.
    fn add_bound(
        &mut self,
        alloc: Global,
        table: &Table,
        lane: usize,
        stimulus: usize,
        bound: i64,
        sign: i64,
    ) -> Result<(), Memory> {
        let members = table.members_of(stimulus);
        let mut cells = Vec::new(alloc);
        for item in 0..table.items {
            if members.has(item) {
                cells.push((self.item_column(table, lane, item as usize), sign))?;
            }
        }
        let group = Model::stimulus_group(table, lane, stimulus);
        let most = self.most_choosing(table, stimulus).wrapping_mul(bound);
        cells.push((
            self.group_column(group),
            most.wrapping_mul(sign).wrapping_neg(),
        ))?;
        let meaning = Meaning::Bound {
            lane,
            stimulus,
            sign,
        };
        self.add_line(alloc, cells.as_slice(), 0, None, 1, meaning)
    }

    /// Adds the lines of the bounds of the stimuli in a lane.
    fn add_bounds(&mut self, alloc: Global, table: &Table, lane: usize) -> Result<(), Memory> {
        let mut stimulus = 1usize;
        for (low, high) in table.bounds.as_slice() {
            self.add_bound(alloc, table, lane, stimulus, *low, 1)?;
            self.add_bound(alloc, table, lane, stimulus, *high, -1)?;
            stimulus = stimulus.wrapping_add(1);
        }
        Ok(())
    }

    /// Adds the line of the use of an item: it is in as many forms as it is used.
    fn add_use(&mut self, alloc: Global, table: &Table, item: usize) -> Result<(), Memory> {
        let mut cells = Vec::new(alloc);
        for lane in 0..self.lanes {
            cells.push((self.item_column(table, lane, item), 1))?;
        }
        let group = self.uses.wrapping_add(item);
        cells.push((self.group_column(group), -1))?;
        let meaning = Meaning::Use { item };
        self.add_line(alloc, cells.as_slice(), 0, Some(0), 1, meaning)
    }

    /// The columns of the items of a stimulus in a lane, where they are linked and one form at most
    /// may choose it.
    fn linked(
        &self,
        alloc: Global,
        table: &Table,
        lane: usize,
        stimulus: usize,
    ) -> Result<Vec<u16>, Memory> {
        let mut linked = Vec::new(alloc);
        let members = table.members_of(stimulus);
        if self.has_links && self.most_choosing(table, stimulus) == 1 {
            for item in 0..table.items {
                if members.has(item) {
                    linked.push(self.item_column(table, lane, item as usize))?;
                }
            }
        }
        Ok(linked)
    }

    /// The items that are linked to each group.
    fn links(&self, alloc: Global, table: &Table) -> Result<Vec<Vec<u16>>, Memory> {
        let mut links = Vec::new(alloc);
        links.push(Vec::new(alloc))?;
        for lane in 0..self.lanes {
            for stimulus in 1..table.bounds.len().saturating_add(1) {
                links.push(self.linked(alloc, table, lane, stimulus)?)?;
            }
        }
        let uses = if self.is_pool { 0 } else { table.items };
        for _ in 0..uses {
            links.push(Vec::new(alloc))?;
        }
        Ok(links)
    }

    /// Adds the lines of a lane.
    fn add_lane(&mut self, alloc: Global, table: &Table, lane: usize) -> Result<(), Memory> {
        for place in 0..table.points.len() {
            self.add_point(alloc, table, lane, place)?;
        }
        if !self.is_pool {
            self.add_length(alloc, table, lane)?;
        }
        self.add_rows(alloc, table, lane)?;
        self.add_bounds(alloc, table, lane)
    }

    /// Adds all columns and lines.
    fn fill(&mut self, alloc: Global, table: &Table) -> Result<(), Memory> {
        let columns = self.columns_of(alloc, table)?;
        self.relaxation = Relaxation::given(alloc, columns, table.pool_length(), FINE)?;
        self.known.push(Known {
            meaning: Meaning::Other,
            up: FINE,
        })?;
        for lane in 0..self.lanes {
            self.add_lane(alloc, table, lane)?;
        }
        if !self.is_pool {
            for item in 0..table.items as usize {
                self.add_use(alloc, table, item)?;
            }
        }
        let links = self.links(alloc, table)?;
        self.relaxation.end_given(alloc, links.as_slice())
    }

    /// The relaxation of the pool or of the forms, for values from somewhat below the goal up to a
    /// number that none exceeds. A vector shows what links do only if it may have a threshold.
    pub fn of(
        alloc: Global,
        table: &Table,
        is_pool: bool,
        has_links: bool,
        goal: i64,
        top: i64,
    ) -> Result<Model, Memory> {
        let shift = shift_of(table.most);
        let margin = (top.wrapping_sub(goal) / 4).max(8);
        let base = lowered(goal.wrapping_sub(margin).max(0), shift);
        let span = lowered(top, shift)
            .wrapping_add(2)
            .wrapping_sub(base)
            .max(1);
        let forms = signed(table.forms);
        let gain = span.wrapping_mul(forms).max(1);
        let lanes = if is_pool { 1 } else { table.forms };
        let none = Columns {
            items: Vec::new(alloc),
            groups: Vec::new(alloc),
            gains: Vec::new(alloc),
        };
        let mut model = Model {
            relaxation: Relaxation::given(alloc, none, 0, FINE)?,
            room: Workspace::new(alloc),
            known: Vec::new(alloc),
            is_pool,
            lanes,
            has_links,
            times: if is_pool { forms } else { 1 },
            columns: lanes.wrapping_mul(table.items as usize),
            uses: Model::stimulus_groups(table, lanes),
            base,
            span,
            shift,
            price: MOST_GAIN.checked_div(gain).unwrap_or(1).clamp(1, PRICE),
        };
        model.fill(alloc, table)?;
        Ok(model)
    }

    /// The bound of a vertex at which no series has a value of the goal.
    pub fn target(&self, table: &Table, goal: i64) -> i64 {
        let unit = self.price.wrapping_mul(signed(table.forms));
        let more = lowered(goal, self.shift).wrapping_sub(self.base);
        unit.wrapping_mul(more).wrapping_sub(unit / 1_000)
    }

    /// Adds the items of a form of a path to sets of columns.
    fn add_set(&self, table: &Table, lane: usize, items: &ItemSet, set: &mut ItemSet) {
        let mut next = 0;
        for _ in 0..512 {
            let Some(item) = items.first_from(next) else {
                break;
            };
            next = item + 1;
            let column = self.item_column(table, lane, item as usize);
            if column < 512 {
                *set = set.with(column);
            }
        }
    }

    /// The items that a lane has taken on a path, and those that are free there.
    fn lane_items(&self, path: &Path, lane: usize) -> (ItemSet, ItemSet) {
        if self.is_pool {
            let taken = path.placed().union(path.used);
            (taken, path.live().minus(taken))
        } else {
            (path.taken_in(lane), path.free_in(lane))
        }
    }

    /// Adds the groups of the stimuli of a lane to the sets of those chosen and open.
    fn add_groups(&self, table: &Table, lane: usize, items: &ItemSet, sets: &mut PathSets) {
        for stimulus in 1..table.bounds.len().saturating_add(1) {
            let group = short(Model::stimulus_group(table, lane, stimulus));
            let has_items = items.meet(table.members_of(stimulus)).first().is_some();
            if group < 512 && has_items && self.most_choosing(table, stimulus) == 1 {
                sets.chosen = sets.chosen.with(group);
            } else if group < 512 {
                sets.opened = sets.opened.with(group);
            }
        }
    }

    /// Adds the groups of the uses.
    fn add_uses(&self, table: &Table, path: &Path, sets: &mut PathSets) {
        let taken = path.placed().union(path.used);
        let live = path.live();
        for item in 0..table.items {
            let group = short(self.uses.wrapping_add(item as usize));
            if group < 512 && taken.has(item) {
                sets.chosen = sets.chosen.with(group);
            } else if group < 512 && live.has(item) {
                sets.opened = sets.opened.with(group);
            }
        }
    }

    /// The sets of columns that a path holds.
    pub fn sets(&self, table: &Table, path: &Path) -> PathSets {
        let mut sets = PathSets {
            taken: ItemSet::empty(),
            free: ItemSet::empty(),
            chosen: ItemSet::empty(),
            opened: ItemSet::empty().with(0),
        };
        for lane in 0..self.lanes {
            let (taken, free) = self.lane_items(path, lane);
            self.add_set(table, lane, &taken, &mut sets.taken);
            self.add_set(table, lane, &free, &mut sets.free);
            self.add_groups(table, lane, &taken, &mut sets);
        }
        if !self.is_pool {
            self.add_uses(table, path, &mut sets);
        }
        sets
    }

    /// The first vertex of a path.
    pub fn first(&self, alloc: Global, table: &Table, path: &Path) -> Result<Vertex, Memory> {
        Vertex::first(alloc, &self.relaxation, &self.sets(table, path))
    }

    /// The branch on a column; None for the value and for stimuli.
    pub fn branch_on(&self, table: &Table, column: u16) -> Option<SeriesNode> {
        let items = table.items as usize;
        match self.relaxation.branch_on(column) {
            Node::BranchItem(number) if self.is_pool && table.forms > 1 => {
                if table.kinds.uses {
                    Some(SeriesNode::Use { item: number })
                } else {
                    None
                }
            }
            Node::BranchItem(number) => {
                let form = (number as usize).checked_div(items).unwrap_or(0);
                let item = (number as usize).checked_rem(items).unwrap_or(0);
                Some(form_branch(table, u8::try_from(form).unwrap_or(0), short(item)))
            }
            Node::BranchStimulus(group)
                if table.kinds.uses && !self.is_pool && group as usize >= self.uses => {
                let item = (group as usize).saturating_sub(self.uses);
                Some(SeriesNode::Use { item: short(item) })
            }
            _ => None,
        }
    }

    /// Adds the price of a line to the multipliers of a form.
    fn add_price(
        &self,
        table: &Table,
        multipliers: &mut Multipliers,
        form: usize,
        known: &Known,
        price: i64,
    ) {
        let price = price.wrapping_mul(1i64 << known.up.min(FINE));
        let raised = price.wrapping_mul(1i64 << self.shift.min(40));
        match &known.meaning {
            Meaning::Point { place, .. } => {
                let place = form.wrapping_mul(table.points.len()).wrapping_add(*place);
                add_at(&mut multipliers.points, place, price.max(0));
            }
            Meaning::Row { row, .. } => {
                let place = form.wrapping_mul(table.rows.len()).wrapping_add(*row);
                add_at(&mut multipliers.rows, place, raised);
            }
            Meaning::Length { .. } => {
                add_at(&mut multipliers.lengths, form, raised.wrapping_neg());
            }
            Meaning::Bound { stimulus, sign, .. } if !table.has_thresholds() => {
                let first = form.wrapping_mul(table.bounds.len());
                let place = first.wrapping_add(*stimulus).wrapping_sub(1);
                add_at(&mut multipliers.bounds, place, raised.wrapping_mul(*sign));
            }
            Meaning::Bound { .. } | Meaning::Use { .. } | Meaning::Other => {}
        }
    }

    /// The multipliers of the prices of all lines; those of the pool count for each form.
    pub fn multipliers(
        &self,
        alloc: Global,
        table: &Table,
        prices: &[i64],
    ) -> Result<Multipliers, Memory> {
        let mut multipliers = Multipliers::none(alloc, table, table.kinds.pool)?;
        for form in 0..table.forms {
            for (known, price) in self.known.iter().zip(prices.iter()) {
                let lane = match &known.meaning {
                    Meaning::Point { lane, .. } => *lane,
                    Meaning::Row { lane, .. } => *lane,
                    Meaning::Length { lane } => *lane,
                    Meaning::Bound { lane, .. } => *lane,
                    Meaning::Use { .. } | Meaning::Other => 0,
                };
                if self.is_pool || lane == form {
                    self.add_price(table, &mut multipliers, form, known, *price);
                }
            }
        }
        if !table.kinds.pool {
            self.add_uses_of(alloc, table, &mut multipliers, prices)?;
        }
        multipliers.fit();
        Ok(multipliers)
    }

    /// Adds the multipliers of common use, which one form alone needs not: those of the lines of
    /// uses, or of a pool what its items count above the last that it takes.
    fn add_uses_of(
        &self,
        alloc: Global,
        table: &Table,
        multipliers: &mut Multipliers,
        prices: &[i64],
    ) -> Result<(), Memory> {
        if table.forms < 2 {
            return Ok(());
        }
        if self.is_pool {
            return set_pool_uses(alloc, table, multipliers);
        }
        for (known, price) in self.known.iter().zip(prices.iter()) {
            if let Meaning::Use { item } = &known.meaning {
                let raised = price.wrapping_mul(1i64 << self.shift.min(40) << FINE);
                add_at(&mut multipliers.uses, *item, raised.wrapping_neg().max(0));
            }
        }
        Ok(())
    }
}

/// Sets the multipliers of common use of a pool: what each item counts above the last of those that
/// count most.
fn set_pool_uses(
    alloc: Global,
    table: &Table,
    multipliers: &mut Multipliers,
) -> Result<(), Memory> {
    let priced = Priced::of(alloc, table, multipliers)?;
    let mut counts = Vec::new(alloc);
    for item in 0..table.items as usize {
        counts.push(priced.weight(table, 0, item).wrapping_neg())?;
    }
    counts.sort_unstable();
    let last = usize::try_from(table.pool_length())
        .unwrap_or(0)
        .saturating_sub(1);
    let least = match counts.get(last) {
        Some(less) => less.wrapping_neg(),
        None => return Ok(()),
    };
    for item in 0..table.items as usize {
        let more = priced.weight(table, 0, item).wrapping_sub(least);
        add_at(&mut multipliers.uses, item, more.max(0));
    }
    Ok(())
}
