//! What the definitions mean: functions that do nothing, and whose clauses are laws.
ghost use Rattle.std.specs.Prelude.{◌≡◌, ◌⊎◌, ℕ, List, []};
ghost use Rattle.wire_http.specs.declared.message.Message.{Message};
ghost use Rattle.wire_http.specs.declared.message.WireFault.{WireFault};
ghost use Rattle.wire_http.specs.Messages.{IsMessage, IsFault, IsSame, IsUndecided};

/// Bytes begin with at most one message.
pub fn one_message()
    // Promise: Bytes begin with at most one message; bytes with a message have no fault; no bytes
    // have neither; and bytes have one fault, except a part of a head that no head of at most 64
    // fields begins with
    // - of `laws::one_message`, `laws::a_message_or_a_fault`, `laws::no_message_of_no_bytes`,
    //   `laws::no_fault_of_no_bytes`, `laws::one_fault`
    ensures { (bytes : List ℕ) (m k : Message) (next after : List ℕ)
        → IsMessage bytes m next → IsMessage bytes k after → IsSame m k × (next ≡ after) }
{}

/// Bytes that begin with a message have no fault.
pub fn a_message_or_a_fault()
    ensures { (bytes : List ℕ) (m : Message) (next : List ℕ) (f : WireFault)
        → IsMessage bytes m next → IsFault bytes f → ⊥ }
{}

/// Bytes have at most one fault, unless they are undecided: a part of a head, which no head of at
/// most 64 fields begins with.
pub fn one_fault()
    ensures { (bytes : List ℕ) (f g : WireFault)
        → IsFault bytes f → IsFault bytes g → (f ≡ g) ⊎ IsUndecided bytes }
{}

/// No bytes begin with no message.
pub fn no_message_of_no_bytes()
    ensures { (m : Message) (next : List ℕ) → IsMessage [] m next → ⊥ }
{}

/// No bytes have no fault.
pub fn no_fault_of_no_bytes()
    ensures { (f : WireFault) → IsFault [] f → ⊥ }
{}
