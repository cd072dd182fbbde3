//! An offer is delivered.

ghost use Rattle.std.specs.Prelude.{◌≡◌, ◌<◌, [], ◌∷◌, ◌++◌, length, Some, None, IsTrue, IfOk, IfErr, OnOk, OnErr};
ghost use Rattle.exam_edge.specs.Faults.{Rose};
ghost use Rattle.exam_edge.specs.Images.{AtEachMoment};
ghost use Rattle.answer_journal.specs.Journal.{accounts_of, faults_of, tells_of};
ghost use Rattle.record_links.specs.Messages.{offer_of};
ghost use Rattle.record_links.specs.Replicas.{IsMended, StopLeaves, Takes};

use crate::fault::DeliverFault;
use crate::follower::Follower;
use exam_edge::Disk;
use exam_office::{Refusal, Taken};
use exam_records::{RecordFault, decode};
use std::alloc::Global;

impl<'a, D: Disk> Follower<'a, D> {
    ghost use Rattle.exam_follower.specs.Followers.{held_of, records_of, may_follow, IsSameFollower};
    ghost use Rattle.exam_follower.specs.Delivering.{IsUnmendedBy, IsNotAppended, IsNotDelivered, HasRecords};

    // Resolves the record in doubt, if there is one.
    fn mend(&mut self) -> Result<(), DeliverFault>
        ensures mended { OnOk result (IsMended (held_of self.old) (records_of self.new)) }
        ensures sure { OnOk result (self.new.doubt ≡ None) }
        ensures held { OnErr result (held_of self.new ≡ held_of self.old) }
        ensures why { IfErr result IsUnmendedBy }
        ensures failed { IfErr result (λ e. e ≡ DeliverFault.Disk
            → Rose (faults_of self.old.office.journal) (faults_of self.new.office.journal)) }
        ensures stops { IsTrue (tells_of self.old.office.journal)
            → AtEachMoment (accounts_of self.old.office.journal)
            (accounts_of self.new.office.journal) (HasRecords (IsMended (held_of self.old))) }
        ensures later { IsSameFollower self.old self.new }
    {
        self.office.holds();
        let Some(rec) = &self.doubt else {
            return Ok(());
        };
        let before = self.office.records();
        match self.office.settle() {
            Ok(()) => {}
            Err(Refusal::Disk) => return Err(DeliverFault::Disk),
            Err(_) => return Err(DeliverFault::Memory),
        }
        if self.office.records() <= before {
            self.doubt = None;
            return Ok(());
        }
        self.taken.push(rec);
        self.doubt = None;
        Ok(())
    }

    // Appends the record of a payload, where it may follow; none is in doubt.
    fn append(&mut self, alloc: Global, payload: &[u8]) -> Result<(), DeliverFault>
        requires sure { self.old.doubt ≡ None }
        ensures follows { OnOk result (may_follow self.old (records_of self.old) payload.now) }
        ensures appended { OnOk result (records_of self.new
            ≡ records_of self.old ++ payload.now ∷ []) }
        ensures sure { OnOk result (self.new.doubt ≡ None) }
        ensures fault { IfErr result (IsNotAppended self.old self.new payload.now) }
        ensures failed { IfErr result (λ e. e ≡ DeliverFault.Disk
            → Rose (faults_of self.old.office.journal) (faults_of self.new.office.journal)) }
        ensures stops { IsTrue (tells_of self.old.office.journal)
            → AtEachMoment (accounts_of self.old.office.journal)
            (accounts_of self.new.office.journal)
            (HasRecords (StopLeaves (may_follow self.old) (held_of self.old)
            (offer_of (length (records_of self.old)) payload.now))) }
        ensures later { IsSameFollower self.old self.new }
    {
        self.office.holds();
        let rec = match decode(alloc, payload) {
            Ok(rec) => rec,
            Err(RecordFault::Memory) => return Err(DeliverFault::Memory),
            Err(fault) => return Err(DeliverFault::BadRecord(fault)),
        };
        match self.office.append_record(alloc, &rec) {
            Ok(()) => {
                let _ = self.office.records();
                self.taken.push(&rec);
                Ok(())
            }
            Err(Taken::Illegal(reason)) => Err(DeliverFault::Refused(reason)),
            Err(Taken::Memory) => Err(DeliverFault::Memory),
            Err(Taken::Full(size)) => Err(DeliverFault::Full(size)),
            Err(Taken::Disk) => {
                self.doubt = Some(rec);
                Err(DeliverFault::Disk)
            }
        }
    }

    /// Delivers an offer, and answers how many records it has then, each on its disk for sure. The
    /// record in doubt, if there is one, is resolved first: one that is kept counts as had. An
    /// offer with another number than the count leaves the records. A refusal leaves them too, and
    /// writes nothing but what resolving the doubt writes; after `Disk` the record may be in doubt.
    pub fn deliver(
        &mut self,
        alloc: Global,
        number: u64,
        payload: &[u8],
    ) -> Result<u64, DeliverFault>
        // Promise: A count is answered for an offer with the next number only where its record was
        // taken, judged as an entry of the office's own is; an offer with another number leaves the
        // records. The count is that of the records then
        // - by `taken` (`Takes`), `count`
        ensures taken { IfOk result (λ _. Takes (may_follow self.old) (held_of self.old)
            (offer_of number payload.now) (held_of self.new)) }
        ensures count { IfOk result (λ n. n ≡ length (records_of self.new)) }
        // Promise: An offer is refused only where its payload is no record or may not follow, and
        // which of both is stated; for want of room only where it may follow; `Disk` comes only
        // where the count of faults rose
        // - by `fault` (`IsNotDelivered`), `failed`
        ensures fault { IfErr result
            (IsNotDelivered self.old self.new (offer_of number payload.now)) }
        ensures failed { IfErr result (λ e. e ≡ DeliverFault.Disk
            → Rose (faults_of self.old.office.journal) (faults_of self.new.office.journal)) }
        // What a crash may leave at each moment of the call.
        // Promise: At each moment of a delivery each file that a crash may leave has the records,
        // those with the one in doubt, or either with the record taken
        // - by `stops` (`StopLeaves`)
        ensures stops { IsTrue (tells_of self.old.office.journal)
            → AtEachMoment (accounts_of self.old.office.journal)
            (accounts_of self.new.office.journal)
            (HasRecords (StopLeaves (may_follow self.old) (held_of self.old)
            (offer_of number payload.now))) }
        // Promise: Bank, plan, base form and disk stay, and what was found at opening
        // - by `later` (`IsSameFollower`)
        ensures later { IsSameFollower self.old self.new }
    {
        match self.mend() {
            Ok(()) => {}
            Err(fault) => return Err(fault),
        }
        let count = self.count();
        if number != count {
            return Ok(count);
        }
        match self.append(alloc, payload) {
            Ok(()) => Ok(self.count()),
            Err(fault) => Err(fault),
        }
    }
}
