//! The state of a path of branches.

ghost use Rattle.std.specs.Prelude.{IsTrue, true, false};
ghost use Rattle.bank_tables.specs.Items.{has};
ghost use Rattle.certificate_model.specs.Paths.{Path, root, with_item, with_stimulus};
ghost use Rattle.form_model.specs.Problem.{Problem as ProblemOf};
ghost use Rattle.form_model.specs.Validity.{IsWellMade};
ghost use Rattle.constraint_model.specs.Views.{problem_of};
ghost use Rattle.lagrange_bound.specs.Cuts.{IsCut, IsCutOf};

use crate::members::{has_one_of, others, those_of, with_one_more};
use bank_tables::ItemSet;
use constraint_model::Problem;
use constraint_model::counts::stimuli_used;

/// The items taken, out and free on a path, and the numbers of the stimuli chosen and open; the
/// other stimuli are dropped (branch and bound; Land and Doig, An Automatic Method of Solving
/// Discrete Programming Problems, 1960).
#[derive(Clone, Copy, Debug, PartialEq, Eq)]
pub struct Cut {
    pub taken: ItemSet,
    pub out: ItemSet,
    pub free: ItemSet,
    pub chosen: ItemSet,
    pub opened: ItemSet,
}

impl Cut {
    /// The state of the path with no branch: the items given are taken, the items barred are out.
    // Promise: A `Cut` is the state of a path of branches: the items taken, out and free, the
    // stimuli chosen and open
    // - of `Cut::root`, `Cut::with_item`, `Cut::with_stimulus`
    // - by `IsCutOf`
    pub fn root(problem: &Problem) -> Cut
        requires { IsWellMade (problem_of problem.now) }
        ensures { IsCutOf (problem_of problem.now) (root (problem_of problem.now)) result }
    {
        let free = others(problem.bank, &problem.given, &problem.barred);
        let chosen = stimuli_used(problem.bank, &problem.given);
        let opened = stimuli_used(problem.bank, &free).minus(chosen);
        Cut {
            taken: problem.given,
            out: problem.barred,
            free,
            chosen,
            opened,
        }
    }

    /// The state where one more item is taken: its stimulus is chosen.
    fn with_taken(&self, problem: &Problem, item: u16) -> Cut
        requires well_made { IsWellMade (problem_of problem.now) }
        requires cut { IsCut (problem_of problem.now) self.now }
        requires free { IsTrue (has self.now.free item) }
        ensures { (p : Path) → IsCutOf (problem_of problem.now) p self.now →
            IsCutOf (problem_of problem.now) (with_item p item true) result }
    {
        let stimulus = problem.bank.stimulus(item);
        Cut {
            taken: self.taken.with(item),
            out: self.out,
            free: self.free.without(item),
            chosen: with_one_more(self.chosen, stimulus),
            opened: self.opened.without(stimulus as u16),
        }
    }

    /// The state where one more item is out: its stimulus is open no more where that was its last
    /// free item.
    fn with_out(&self, problem: &Problem, item: u16) -> Cut
        requires well_made { IsWellMade (problem_of problem.now) }
        requires cut { IsCut (problem_of problem.now) self.now }
        requires free { IsTrue (has self.now.free item) }
        ensures { (p : Path) → IsCutOf (problem_of problem.now) p self.now →
            IsCutOf (problem_of problem.now) (with_item p item false) result }
    {
        let stimulus = problem.bank.stimulus(item);
        let free = self.free.without(item);
        let opened = if has_one_of(problem.bank, &free, stimulus) {
            self.opened
        } else {
            self.opened.without(stimulus as u16)
        };
        Cut {
            taken: self.taken,
            out: self.out.with(item),
            free,
            chosen: self.chosen,
            opened,
        }
    }

    /// The state below a branch on a free item: it is taken, or it is out.
    pub fn with_item(&self, problem: &Problem, item: u16, taken: bool) -> Cut
        requires well_made { IsWellMade (problem_of problem.now) }
        requires cut { IsCut (problem_of problem.now) self.now }
        requires free { IsTrue (has self.now.free item) }
        ensures { (p : Path) → IsCutOf (problem_of problem.now) p self.now →
            IsCutOf (problem_of problem.now) (with_item p item taken) result }
    {
        if taken {
            self.with_taken(problem, item)
        } else {
            self.with_out(problem, item)
        }
    }

    /// The state where the stimulus is chosen.
    fn with_chosen(&self, stimulus: u8) -> Cut
        ensures { (P : ProblemOf) (p : Path) → IsCutOf P p self.now →
            IsCutOf P (with_stimulus P p stimulus true) result }
    {
        let which = stimulus as u16;
        Cut {
            taken: self.taken,
            out: self.out,
            free: self.free,
            chosen: self.chosen.with(which),
            opened: self.opened.without(which),
        }
    }

    /// The state where the stimulus is dropped: its free items are out.
    fn with_dropped(&self, problem: &Problem, stimulus: u8) -> Cut
        requires { IsWellMade (problem_of problem.now) }
        ensures { (p : Path) → IsCutOf (problem_of problem.now) p self.now →
            IsCutOf (problem_of problem.now) (with_stimulus
            (problem_of problem.now) p stimulus false) result }
    {
        let dropped = those_of(problem.bank, &self.free, stimulus);
        Cut {
            taken: self.taken,
            out: self.out.union(dropped),
            free: self.free.minus(dropped),
            chosen: self.chosen,
            opened: self.opened.without(stimulus as u16),
        }
    }

    /// The state below a branch on an open stimulus: it is chosen, or its free items are out.
    pub fn with_stimulus(&self, problem: &Problem, stimulus: u8, chosen: bool) -> Cut
        requires well_made { IsWellMade (problem_of problem.now) }
        requires cut { IsCut (problem_of problem.now) self.now }
        requires opened { IsTrue (has self.now.opened stimulus) }
        ensures { (p : Path) → IsCutOf (problem_of problem.now) p self.now →
            IsCutOf (problem_of problem.now) (with_stimulus
            (problem_of problem.now) p stimulus chosen) result }
    {
        if chosen {
            self.with_chosen(stimulus)
        } else {
            self.with_dropped(problem, stimulus)
        }
    }
}
