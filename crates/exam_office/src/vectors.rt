//! The vectors of multipliers that an office keeps, one for each session.

ghost use Rattle.std.specs.Prelude.{◌≡◌, ◌<◌, ℕ, [], length, None, IfOk, OnOk};
ghost use Rattle.std.specs.Option.{option_copied};
ghost use Rattle.exam_office.specs.Warm.{names_sides};
ghost use Rattle.exam_office.specs.KeptVectors.{vector_at, new_by, HasRoom, AreVectorsWith, AreVectorsAfter};

use bank_tables::Bank;
use bank_tables::sides::{CAP_HIGH, CAP_LOW};
use constraint_model::Spec;
use exam_records::Record;
use history_model::Entry;
use proof_tree::{Memory, Tree, Vector};
use std::alloc::Global;

/// What the record of an item that is served makes the vector of its session.
#[derive(Drop)]
pub(crate) struct NewVector {
    pub session: u32,
    pub vector: Option<Vector>,
}

/// Whether each side that the vector names is one of the plan's, or of the cap.
fn names_only_sides(bank: &Bank, spec: &Spec, vector: &Vector) -> bool
    ensures { result ≡ names_sides bank.now spec.now vector.now }
{
    let sides = 2 * spec.rows().len() as u128 + 2 * bank.stimuli() as u128;
    let pairs = vector.pairs();
    pairs.iter().all(|pair| (pair.0 as u128) < sides || pair.0 == CAP_LOW || pair.0 == CAP_HIGH)
}

/// A copy of the first vector of a tree, if each side that it names is one of the plan's, or of
/// the cap.
fn first_vector(
    alloc: Global,
    bank: &Bank,
    spec: &Spec,
    tree: &Tree,
) -> Result<Option<Vector>, Memory>
    ensures { IfOk result (λ found. found
        ≡ Rattle.exam_office.specs.Warm.first_vector bank.now spec.now tree.now) }
{
    let Some(vector) = tree.vectors().first() else {
        return Ok(None);
    };
    if names_only_sides(bank, spec, vector) {
        Ok(Some(vector.again(alloc)?))
    } else {
        Ok(None)
    }
}

/// What the record of an entry and its tree makes the vector of its session, if it serves an item.
fn new_vector(
    alloc: Global,
    bank: &Bank,
    spec: &Spec,
    entry: &Entry,
    tree: Option<&Tree>,
) -> Result<Option<NewVector>, Memory>
    ensures { IfOk result (λ found. found ≡ new_by bank.now spec.now entry.now
        (option_copied tree.entry)) }
{
    let Entry::Served { session, .. } = entry else {
        return Ok(None);
    };
    let vector = match tree {
        Some(tree) => first_vector(alloc, bank, spec, tree)?,
        None => None,
    };
    Ok(Some(NewVector {
        session: *session,
        vector,
    }))
}

/// The vectors of the sessions: for each the first of the tree in the last record that serves an
/// item in it, if each side that it names is one of the plan's, or of the cap.
#[derive(Drop)]
pub(crate) struct Vectors {
    /// One for each session up to the last for which a serving was tried.
    pub each: Vec<Option<Vector>>,
    /// What the record in doubt makes the vector of its session.
    pub doubt: Option<NewVector>,
}

impl Vectors {
    /// None for each session.
    pub fn new(alloc: Global) -> Vectors
        ensures each { result.each.items ≡ [] }
        ensures doubt { result.doubt ≡ None }
    {
        Vectors {
            each: Vec::new(alloc),
            doubt: None,
        }
    }

    /// A copy of a session's vector.
    pub fn copy(&self, alloc: Global, session: u32) -> Result<Option<Vector>, Memory>
        ensures { IfOk result (λ found. found ≡ vector_at self.now.each.items session) }
    {
        match self.each.get(session as usize) {
            Some(Some(vector)) => Ok(Some(vector.again(alloc)?)),
            _ => Ok(None),
        }
    }

    /// Takes room for the vector of a session.
    fn make_room(&mut self, session: u32) -> Result<(), Memory>
        ensures same { (s : ℕ) → vector_at self.new.each.items s ≡ vector_at self.old.each.items s }
        ensures room { OnOk result (session < length self.new.each.items) }
        ensures doubt { self.new.doubt ≡ self.old.doubt }
    {
        while self.each.len() <= session as usize {
            self.each.push(None)?;
        }
        Ok(())
    }

    /// A copy of what the record of an entry and its tree makes a session's vector, and room for
    /// it.
    pub fn prepare(
        &mut self,
        alloc: Global,
        bank: &Bank,
        spec: &Spec,
        entry: &Entry,
        tree: Option<&Tree>,
    ) -> Result<Option<NewVector>, Memory>
        ensures new { IfOk result (λ found. found ≡ new_by bank.now spec.now entry.now
            (option_copied tree.entry)) }
        ensures room { IfOk result (HasRoom self.new.each.items) }
        ensures same { (s : ℕ) → vector_at self.new.each.items s ≡ vector_at self.old.each.items s }
        ensures doubt { self.new.doubt ≡ self.old.doubt }
    {
        let new = new_vector(alloc, bank, spec, entry, tree)?;
        if let Some(found) = &new {
            self.make_room(found.session)?;
        }
        Ok(new)
    }

    /// Keeps what a record makes the vector of its session.
    pub fn keep(&mut self, new: Option<NewVector>)
        requires { HasRoom self.old.each.items new }
        ensures each { AreVectorsWith self.old.each.items new self.new.each.items }
        ensures doubt { self.new.doubt ≡ self.old.doubt }
    {
        if let Some(found) = new {
            self.each[found.session as usize] = found.vector;
        }
    }

    /// What the record in doubt makes the vector of its session is put by.
    pub fn hold(&mut self, new: Option<NewVector>)
        ensures each { self.new.each.items ≡ self.old.each.items }
        ensures doubt { self.new.doubt ≡ new }
    {
        self.doubt = new;
    }

    /// The record in doubt is kept.
    pub fn adopt(&mut self)
        requires { HasRoom self.old.each.items self.old.doubt }
        ensures each { AreVectorsWith self.old.each.items self.old.doubt self.new.each.items }
        ensures doubt { self.new.doubt ≡ None }
    {
        let new = self.doubt.take();
        self.keep(new);
    }

    /// The record in doubt is dropped.
    pub fn forget(&mut self)
        ensures each { self.new.each.items ≡ self.old.each.items }
        ensures doubt { self.new.doubt ≡ None }
    {
        self.doubt = None;
    }

    /// Keeps what a record makes the vector of its session.
    pub fn take(
        &mut self,
        alloc: Global,
        bank: &Bank,
        spec: &Spec,
        rec: &Record,
    ) -> Result<(), Memory>
        ensures each { OnOk result (AreVectorsAfter bank.now spec.now self.old.each.items rec.now
            self.new.each.items) }
        ensures doubt { self.new.doubt ≡ self.old.doubt }
    {
        let new = self.prepare(alloc, bank, spec, &rec.entry, rec.tree.as_ref())?;
        self.keep(new);
        Ok(())
    }
}
