//! A sweep: a tree made depth first, where each path begins with the vertex that its branch led to.

use crate::anneal::split;
use crate::branching::{Branch, may_branch};
use crate::draws::Draws;
use crate::forms::Best;
use crate::known::Kept;
use crate::leaves::shortage;
use crate::model::{Model, form_branch};
use crate::path::Path;
use crate::table::Table;
use bank_tables::ItemSet;
use bank_tables::limits::NODES;
use multiplier_exchanges::Vertex;
use series_tree::{Memory, SeriesNode};
use std::alloc::Global;

/// Exchanges on each side of a branch that is made where nothing is taken in part.
const NEXT: u32 = 8;

/// How often a better series at a path lets its exchanges go on.
const GAINS: u32 = 8;

/// So many pools of a sweep may stay in one piece; then none is parted any more.
const UNSPLIT: u32 = 6;

/// A path that waits for its subtree, with its vertex, which is of the relaxation of the pool or of
/// that of the forms.
#[derive(Drop)]
struct Waiting {
    path: Path,
    vertex: Vertex,
    is_pool: bool,
}

/// The relaxations of a sweep: that of the pool, and that of the forms, if there is one.
#[derive(Drop)]
pub struct Models {
    pub pool: Model,
    pub forms: Option<Model>,
}

impl Models {
    /// The relaxations for values from somewhat below the goal up to a number that none exceeds.
    pub fn of(
        alloc: Global,
        table: &Table,
        has_links: bool,
        goal: i64,
        top: i64,
    ) -> Result<Models, Memory> {
        let pool = Model::of(alloc, table, true, has_links, goal, top)?;
        let forms = if Model::has_forms(table) {
            Some(Model::of(alloc, table, false, has_links, goal, top)?)
        } else {
            None
        };
        Ok(Models { pool, forms })
    }

    /// That of the pool, or that of the forms.
    fn at(&mut self, is_pool: bool) -> &mut Model {
        match &mut self.forms {
            Some(forms) if !is_pool => forms,
            _ => &mut self.pool,
        }
    }
}

/// A node, and of a branch the vertices of its sides.
#[derive(Drop)]
enum Made {
    Leaf(SeriesNode),
    Branch(Branch),
}

/// What a sweep has made so far.
#[derive(Drop)]
pub struct Sweep {
    models: Models,
    pub kept: Kept,
    pub nodes: Vec<SeriesNode>,
    waiting: Vec<Waiting>,
    /// Branches that the budget still allows.
    branches: u32,
    /// Pools that stayed in one piece.
    unsplit: u32,
    /// Whether nothing more is expected of exchanges, since vectors have no room, or a pool without
    /// a relaxation of the forms stayed in one piece. The budget is spent all the same, as a tree
    /// that is not a proof needs.
    is_hopeless: bool,
    /// Whether the sweep only looks for better series: a path that exchanges close is left open,
    /// and so is one whose pool stayed in one piece.
    is_scout: bool,
    /// Whether a leaf is Open.
    pub is_spent: bool,
}

impl Sweep {
    /// A sweep that has only its root, which begins with the relaxation of the pool or of the
    /// forms.
    pub fn new(
        alloc: Global,
        table: &Table,
        mut models: Models,
        is_pool: bool,
        branches: u32,
    ) -> Result<Sweep, Memory> {
        let path = Path::root(table);
        let vertex = models.at(is_pool).first(alloc, table, &path)?;
        let mut waiting = Vec::new(alloc);
        waiting.push(Waiting {
            path,
            vertex,
            is_pool,
        })?;
        Ok(Sweep {
            models,
            kept: Kept::none(alloc),
            nodes: Vec::new(alloc),
            waiting,
            branches,
            unsplit: 0,
            is_hopeless: false,
            is_scout: false,
            is_spent: false,
        })
    }

    /// A sweep that only looks for better series.
    pub fn scout(
        alloc: Global,
        table: &Table,
        models: Models,
        is_pool: bool,
        branches: u32,
    ) -> Result<Sweep, Memory> {
        let mut sweep = Sweep::new(alloc, table, models, is_pool, branches)?;
        sweep.is_scout = true;
        Ok(sweep)
    }

    /// Whether no path waits for its subtree.
    pub fn is_whole(&self) -> bool {
        self.waiting.is_empty()
    }

    /// The leaf at a path that needs no exchanges.
    fn settled(
        &mut self,
        alloc: Global,
        table: &Table,
        best: &mut Best,
        path: &Path,
    ) -> Result<Option<SeriesNode>, Memory> {
        if let Some(leaf) = path.counted(table) {
            return Ok(Some(leaf));
        }
        if path.live().first().is_none() {
            best.offer(table, &path.taken);
            return Ok(Some(SeriesNode::Whole));
        }
        if let Some(leaf) = self.kept.closed(table, best, path)? {
            return Ok(Some(leaf));
        }
        shortage(alloc, table, &mut self.kept, best, path)
    }

    /// The sets that a vertex takes, by lanes.
    fn sets_of(model: &Model, table: &Table, path: &Path, vertex: &Vertex) -> [ItemSet; 4] {
        let taken = model.sets(table, path).taken;
        let columns = taken.union(vertex.items(&model.relaxation, &ItemSet::empty()));
        let mut sets = [ItemSet::empty(); 4];
        let items = table.items as usize;
        let mut next = 0;
        for _ in 0..512 {
            let Some(column) = columns.first_from(next) else {
                break;
            };
            next = column + 1;
            let lane = (column as usize).checked_div(items).unwrap_or(0);
            let item = (column as usize).checked_rem(items).unwrap_or(0);
            if let (Some(set), Ok(item)) = (sets.get_mut(lane), u16::try_from(item)) {
                if item < 512 {
                    *set = set.with(item);
                }
            }
        }
        sets
    }

    /// Offers the series of a vertex that takes each item as a whole, or of its pool.
    fn offer(
        &mut self,
        alloc: Global,
        table: &Table,
        best: &mut Best,
        draws: &mut Draws,
        at: &Waiting,
    ) -> Result<(), Memory> {
        let model = self.models.at(at.is_pool);
        let sets = Sweep::sets_of(model, table, &at.path, &at.vertex);
        if !at.is_pool || table.forms == 1 {
            best.offer(table, &sets);
            return Ok(());
        }
        let [pool, ..] = sets;
        if pool.count() as i64 == table.pool_length() && self.unsplit < UNSPLIT {
            let goal = best.value.saturating_add(1);
            match split(alloc, table, &pool, goal, draws)? {
                Some(forms) => best.offer(table, &forms),
                None => self.unsplit = self.unsplit.saturating_add(1),
            }
        }
        Ok(())
    }

    /// A branch where nothing is taken in part: on the use of an item that the vertex takes, else
    /// on any item.
    fn any_branch(&mut self, table: &Table, at: &Waiting) -> Option<SeriesNode> {
        let path = &at.path;
        if table.kinds.uses && at.is_pool && table.forms > 1 {
            let model = self.models.at(true);
            let [pool, ..] = Sweep::sets_of(model, table, path, &at.vertex);
            let open = pool.minus(path.used).minus(path.placed()).meet(path.live());
            if let Some(item) = open.first() {
                return Some(SeriesNode::Use { item });
            }
        }
        let mut form = 0u8;
        for _ in 0..table.forms {
            if let Some(item) = path.free_in(form as usize).first() {
                return Some(form_branch(table, form, item));
            }
            form = form.saturating_add(1);
        }
        None
    }

    /// The leaf that exchanges find; a better series that is met on the way lets them go on.
    fn leaf(
        &mut self,
        alloc: Global,
        table: &Table,
        best: &mut Best,
        draws: &mut Draws,
        at: &mut Waiting,
    ) -> Result<Result<SeriesNode, Option<Branch>>, Memory> {
        for _ in 0..GAINS {
            let (model, kept) = (self.models.at(at.is_pool), &mut self.kept);
            let (path, vertex) = (&at.path, &mut at.vertex);
            if self.is_scout && model.closes(table, best, vertex)? {
                return Ok(Ok(SeriesNode::Open));
            }
            if let Some(leaf) = model.leaf(alloc, table, kept, best, path, vertex)? {
                return Ok(Ok(leaf));
            }
            if let Some(branch) = model.best_branch(alloc, table, best, path, vertex)? {
                return Ok(Err(Some(branch)));
            }
            let known = best.value;
            self.offer(alloc, table, best, draws, at)?;
            if best.value == known {
                break;
            }
        }
        Ok(Err(None))
    }

    /// The same; a path whose pool cannot be parted goes on with the relaxation of the forms, if
    /// there is one.
    fn leaf_or_forms(
        &mut self,
        alloc: Global,
        table: &Table,
        best: &mut Best,
        draws: &mut Draws,
        at: &mut Waiting,
    ) -> Result<Result<SeriesNode, Option<Branch>>, Memory> {
        let found = self.leaf(alloc, table, best, draws, at)?;
        match (&found, &self.models.forms) {
            (Err(None), Some(forms)) if at.is_pool => {
                at.vertex = forms.first(alloc, table, &at.path)?;
                at.is_pool = false;
                self.leaf(alloc, table, best, draws, at)
            }
            _ => Ok(found),
        }
    }

    /// The branch that is made at a path in place of a leaf.
    fn branch(
        &mut self,
        alloc: Global,
        table: &Table,
        best: &Best,
        at: &Waiting,
        found: Option<Branch>,
    ) -> Result<Made, Memory> {
        if let Some(branch) = found {
            return Ok(Made::Branch(branch));
        }
        if self.is_scout {
            return Ok(Made::Leaf(SeriesNode::Open));
        }
        self.is_hopeless = self.is_hopeless || at.is_pool && table.forms > 1;
        match self.any_branch(table, at) {
            Some(node) if may_branch(&at.path, &node) => {
                let (path, vertex) = (&at.path, &at.vertex);
                if self.is_hopeless {
                    let branch = Model::untried(alloc, vertex, &node)?;
                    return Ok(Made::Branch(branch));
                }
                let model = self.models.at(at.is_pool);
                let branch = model.tried(alloc, table, best, path, vertex, &node, NEXT)?;
                Ok(Made::Branch(branch))
            }
            _ => Ok(Made::Leaf(SeriesNode::Open)),
        }
    }

    /// The node at a path.
    fn node_at(
        &mut self,
        alloc: Global,
        table: &Table,
        best: &mut Best,
        draws: &mut Draws,
        at: &mut Waiting,
    ) -> Result<Made, Memory> {
        if let Some(leaf) = self.settled(alloc, table, best, &at.path)? {
            return Ok(Made::Leaf(leaf));
        }
        if self.is_spent {
            return Ok(Made::Leaf(SeriesNode::Open));
        }
        self.is_hopeless = self.is_hopeless || self.kept.is_full();
        let found = if self.is_hopeless {
            None
        } else {
            match self.leaf_or_forms(alloc, table, best, draws, at)? {
                Ok(leaf) => return Ok(Made::Leaf(leaf)),
                Err(found) => found,
            }
        };
        if self.branches == 0 {
            self.is_spent = true;
            return Ok(Made::Leaf(SeriesNode::Open));
        }
        self.branches = self.branches.saturating_sub(1);
        self.branch(alloc, table, best, at, found)
    }

    /// Adds the node of the path that waits last; false where none waits.
    fn add_node(
        &mut self,
        alloc: Global,
        table: &Table,
        best: &mut Best,
        draws: &mut Draws,
    ) -> Result<bool, Memory> {
        let Some(mut at) = self.waiting.pop() else {
            return Ok(false);
        };
        let made = self.node_at(alloc, table, best, draws, &mut at)?;
        let (path, is_pool) = (at.path, at.is_pool);
        match made {
            Made::Leaf(node) => self.nodes.push(node)?,
            Made::Branch(branch) => {
                let node = branch.node;
                self.nodes.push(node)?;
                self.waiting.push(Waiting {
                    path: path.below(&node, false),
                    vertex: branch.other,
                    is_pool,
                })?;
                self.waiting.push(Waiting {
                    path: path.below(&node, true),
                    vertex: branch.first,
                    is_pool,
                })?;
            }
        }
        Ok(true)
    }

    /// Adds the nodes of all paths.
    pub fn grow(
        &mut self,
        alloc: Global,
        table: &Table,
        best: &mut Best,
        draws: &mut Draws,
    ) -> Result<(), Memory> {
        for _ in 0..NODES {
            if !self.add_node(alloc, table, best, draws)? {
                break;
            }
        }
        Ok(())
    }
}
