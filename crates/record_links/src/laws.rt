//! What the definitions mean: functions that do nothing, and whose clauses are laws.
ghost use Rattle.std.specs.Prelude.{◌≡◌, ◌<◌, ◌^◌, ◌++◌, ℕ, List};
ghost use Rattle.record_links.specs.declared.fault.PeerFault.{PeerFault};
ghost use Rattle.record_links.specs.Events.{LinksAreEvents, TakesAreEvents, FaultsAreEvents, StopsAreEvents, LinksGoOn, EventsJoin, OffersAreEvents};
ghost use Rattle.record_links.specs.Messages.{IsPayload, offer_of, offer_text, have_text, IsOffer, IsEnd, IsNoOffer, IsHave, IsNoHave};
ghost use Rattle.record_links.specs.World.{Numbered, FollowsAlong};

use crate::Replica;

/// Whatever happens to a leader and a follower that begins as it does, by the rule of a replica,
/// its records are a beginning of the leader's, and none that it ever answered for is lacking.
pub fn a_follower_follows<F: Replica>(_replica: &F)
    // Promise: Whatever is lost, repeated or out of order, and whenever the follower stops, its
    // records are a beginning of the leader's, at least as many as it ever answered, and those it
    // answered are the leader's
    // - by the clause (`FollowsAlong`)
    ensures { FollowsAlong (F.may_follow _replica.now) }
{}

/// What a link does to a replica with no record in doubt is events of the world, where the offers
/// that it took were sent.
pub fn links_are_events<F: Replica>(_replica: &F)
    // Promise: A link is events of the world, where the offers that it took were sent and no record
    // is in doubt at its start
    // - by the clause (`LinksAreEvents`)
    ensures { LinksAreEvents (F.may_follow _replica.now) (F.size _replica.now)
        (F.limit _replica.now) }
{}

/// A replica with an offer that was sent in hand goes on within the world of a leader, whether the
/// call takes the offer, fails, or is cut off by a stop. Only an offer that is taken is answered.
pub fn calls_are_events<F: Replica>(_replica: &F)
    // Promise: A call with an offer that was sent is events of the world: it takes the offer, or
    // fails, or a stop cuts it off. A record may be in doubt at its start, and at its end where the
    // disk failed. Only a taken offer is answered
    // - by `taken`, `fault`, `stops` (`TakesAreEvents`, `FaultsAreEvents`, `StopsAreEvents`)
    ensures taken { TakesAreEvents (F.may_follow _replica.now) }
    ensures fault { FaultsAreEvents (F.may_follow _replica.now) (F.size _replica.now)
        (F.limit _replica.now) }
    ensures stops { StopsAreEvents (F.may_follow _replica.now) }
    // A link is these calls, one after another.
    // Promise: So is a link that such a replica takes offers over, and events after events are
    // events
    // - by `links`, `joined` (`LinksGoOn`, `EventsJoin`)
    ensures links { LinksGoOn (F.may_follow _replica.now) (F.size _replica.now)
        (F.limit _replica.now) }
    ensures joined { EventsJoin (F.may_follow _replica.now) }
{}

/// What a shipper of the leader's records writes for haves are offers of the world.
pub fn offers_are_events<F: Replica>(_replica: &F)
    // Promise: What a shipper of the leader's records wrote for haves is one offer for each, and
    // that these are sent is events of the world
    // - by the clause (`OffersAreEvents`)
    ensures { OffersAreEvents (F.may_follow _replica.now) }
{}

/// Bytes begin with at most one message of a shipper, or have one fault.
pub fn one_message_of_a_shipper()
    // Promise: Bytes begin with one message of a shipper, or with the end, or have one fault, and
    // no two of these; the same holds of a follower's
    // - of `laws::one_message_of_a_shipper`, `laws::one_message_of_a_follower`
    // - by `offer`, `no_end`, `no_fault`, `end_no_fault`, `fault`; `have`
    ensures offer { (bytes : List ℕ) (o p : Numbered (List ℕ)) (next after : List ℕ)
        → IsOffer bytes o next → IsOffer bytes p after → (o ≡ p) × (next ≡ after) }
    ensures no_end { (bytes : List ℕ) (o : Numbered (List ℕ)) (next : List ℕ)
        → IsOffer bytes o next → IsEnd bytes → ⊥ }
    ensures no_fault { (bytes : List ℕ) (o : Numbered (List ℕ)) (next : List ℕ) (f : PeerFault)
        → IsOffer bytes o next → IsNoOffer bytes f → ⊥ }
    ensures end_no_fault { (bytes : List ℕ) (f : PeerFault)
        → IsEnd bytes → IsNoOffer bytes f → ⊥ }
    ensures fault { (bytes : List ℕ) (f g : PeerFault)
        → IsNoOffer bytes f → IsNoOffer bytes g → f ≡ g }
{}

/// Bytes begin with at most one message of a follower, or have one fault.
pub fn one_message_of_a_follower()
    ensures have { (bytes : List ℕ) (n m : ℕ) (next after : List ℕ)
        → IsHave bytes n next → IsHave bytes m after → (n ≡ m) × (next ≡ after) }
    ensures no_fault { (bytes : List ℕ) (n : ℕ) (next : List ℕ) (f : PeerFault)
        → IsHave bytes n next → IsNoHave bytes f → ⊥ }
    ensures fault { (bytes : List ℕ) (f g : PeerFault)
        → IsNoHave bytes f → IsNoHave bytes g → f ≡ g }
{}

/// What one side writes the other side reads.
pub fn what_is_written_is_read()
    // Promise: The offers and haves that one side writes are those that the other side reads
    // - by `offer`, `have`
    ensures offer { (number : ℕ) (payload rest : List ℕ) → number < 2 ^ 64 → IsPayload payload
        → IsOffer (offer_text number payload ++ rest) (offer_of number payload) rest }
    ensures have { (count : ℕ) (rest : List ℕ) → count < 2 ^ 64
        → IsHave (have_text count ++ rest) count rest }
{}
