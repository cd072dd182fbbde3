//! A plan that was tested against an item bank.

ghost use Rattle.std.specs.Prelude.{◌≡◌, ◌<◌, ◌≤◌, length, None, IfOk, IfErr};
ghost use Rattle.form_model.specs.Plan.{band_of, bands_of};
ghost use Rattle.form_model.specs.Validity.{IsPlanFor};
ghost use Rattle.constraint_model.specs.Faults.{front_fault, IsSpecFault};
ghost use Rattle.exam_text.specs.Keys.{IsKey};

use crate::faults::{first_fault, remaining_fault};
use crate::spec_fault::SpecFault;
use bank_tables::{Bank, ItemSet};
use form_model::{Draft, Rate, Row, StimulusBound};
use std::alloc::Global;
use std::marker::Model;

/// A plan, valid for the item bank that it was tested against.
#[derive(Debug, Drop)]
pub struct Spec {
    draft: Draft,
}

impl Model for Spec {
    ghost use Rattle.std.specs.Prelude.{◌≤◌, length};
    ghost use Rattle.form_model.specs.Plan.{Plan};
    ghost use Rattle.exam_text.specs.Keys.{IsKey};

    ghost Value = { Plan };

    ghost view = { λ s. s.draft };

    ghost invariant = { λ s. IsKey s.draft.key × (length s.draft.bands ≤ 7) };
}

/// What is true of a key by its type.
fn facts_of_key(key: &[u8; 32])
    ensures { IsKey key.now }
{
    for i in 0..32 {
        prove!(key[i] <= 255);
    }
}

impl Spec {
    /// The plan of a draft, valid for the bank, or the draft's first fault: the tests go in the
    /// order of `SpecFault`'s variants. It takes no memory of its own, so `SpecFault::Memory` is
    /// never given.
    pub fn of(_alloc: Global, bank: &Bank, draft: Draft) -> Result<Spec, SpecFault>
        // Promise: A draft is taken exactly where it is a valid plan for the bank, and the plan
        // then has the draft's numbers
        // - by `same`, `valid`
        ensures same { IfOk result (λ spec. spec ≡ draft) }
        ensures valid { IfOk result (λ spec. IsPlanFor bank.now spec) }
        // Promise: Else the first fault is named, in this order: length, prior, number of rows, row
        // by row (bounds, empty set, unknown item, unknown quantity), the bounds of the stimuli,
        // rate, bands, budgets, limits, base; it is never out of memory
        // - by `fault` (`IsSpecFault`)
        ensures fault { IfErr result (λ fault. IsSpecFault bank.now draft fault) }
    {
        match first_fault(bank, &draft) {
            Some(fault) => Err(fault),
            None => Ok(Spec::tested(draft)),
        }
    }

    fn tested(draft: Draft) -> Spec
        requires { length draft.bands ≤ 7 }
        ensures { result ≡ draft }
    {
        facts_of_key(&draft.key);
        Spec { draft }
    }

    /// The same of a draft whose length, prior and rows `front_fault` has tested; they are not
    /// tested again.
    pub fn of_tested(bank: &Bank, draft: Draft) -> Result<Spec, SpecFault>
        requires { front_fault bank.now draft ≡ None }
        // Promise: A draft that was tested up to the bounds is a plan by the tests that are left
        // - by `same`, `valid`, `fault`
        ensures same { IfOk result (λ spec. spec ≡ draft) }
        ensures valid { IfOk result (λ spec. IsPlanFor bank.now spec) }
        ensures fault { IfErr result (λ fault. IsSpecFault bank.now draft fault) }
    {
        match remaining_fault(bank, &draft) {
            Some(fault) => Err(fault),
            None => Ok(Spec::tested(draft)),
        }
    }

    /// The numbers of the plan.
    pub(crate) fn draft(&self) -> &Draft
        ensures { result.now ≡ self.now }
    {
        &self.draft
    }

    /// Items per test.
    pub fn length(&self) -> u32
        // Promise: A plan's numbers are read as they were given
        // - of `Spec::length`, `Spec::prior`, `Spec::rows`, `Spec::bounds`, `Spec::rate`,
        //   `Spec::key`, `Spec::budget`, `Spec::base_budget`, `Spec::sessions`, `Spec::journal`,
        //   `Spec::base`
        ensures { result ≡ self.now.length }
    {
        self.draft.length
    }

    /// The logarithm of the prior at each grid point.
    pub fn prior(&self) -> &[i32]
        ensures { result.now ≡ self.now.prior }
    {
        self.draft.prior.as_slice()
    }

    /// The rows, numbered from 0.
    pub fn rows(&self) -> &[Row]
        ensures { result.now ≡ self.now.rows }
    {
        self.draft.rows.as_slice()
    }

    /// The bounds of each stimulus: those of stimulus `s` at `s - 1`.
    pub fn bounds(&self) -> &[StimulusBound]
        ensures { result.now ≡ self.now.bounds }
    {
        self.draft.bounds.as_slice()
    }

    /// The exposure rate.
    pub fn rate(&self) -> Rate
        ensures { result ≡ self.now.rate }
    {
        self.draft.rate
    }

    /// The key of the eligibility draw.
    pub fn key(&self) -> &[u8; 32]
        // Promise: The key of a plan has 32 bytes
        // - by `value`, `bytes` (`IsKey`)
        ensures value { result.now ≡ self.now.key }
        ensures bytes { IsKey self.now.key }
    {
        &self.draft.key
    }

    /// The grid points at which a new band of abilities begins, in rising order; none where there
    /// is one band.
    pub fn bands(&self) -> &[u8]
        // Promise: The points at which bands begin are those of the plan, at most 7
        // - by `points`, `few`
        ensures points { result.now ≡ self.now.bands }
        ensures few { length self.now.bands ≤ 7 }
    {
        self.draft.bands.as_slice()
    }

    /// The band of a grid point, numbered from 0 on: how many of the points at which bands begin
    /// are at most this one.
    pub fn band(&self, point: u8) -> u8
        // Promise: The band of a grid point is the number of those points that are at most it; it
        // is a band of the plan, and below 8
        // - by `band` (`band_of`), `of_plan`, `few`
        ensures band { result ≡ band_of self.now point }
        ensures of_plan { result < bands_of self.now }
        ensures few { result < 8 }
    {
        self.bands().iter().filter(|first| **first <= point).count() as u8
    }

    /// Nodes of a proof tree for a step, at most.
    pub fn budget(&self) -> u32
        ensures { result ≡ self.now.budget }
    {
        self.draft.budget
    }

    /// The same for the base form.
    pub fn base_budget(&self) -> u32
        ensures { result ≡ self.now.base_budget }
    {
        self.draft.base_budget
    }

    /// Sessions, at most.
    pub fn sessions(&self) -> u32
        ensures { result ≡ self.now.sessions }
    {
        self.draft.sessions
    }

    /// Bytes of the journal, at most.
    pub fn journal(&self) -> u64
        ensures { result ≡ self.now.journal }
    {
        self.draft.journal
    }

    /// The base form, if the plan names one.
    pub fn base(&self) -> Option<ItemSet>
        ensures { result ≡ self.now.base }
    {
        self.draft.base
    }
}

/// Threads may move and share a value of this type.
fn may_be_shared<T: Send + Sync>() {}

/// Threads may move and share a plan.
fn a_plan_may_be_shared() {
    may_be_shared::<Spec>()
}
