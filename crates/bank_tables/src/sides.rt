//! The numbers of the two sides that a vector of multipliers has for the cap.
//!
//! A vector names sides by their numbers: two for each row of the plan, then two for each stimulus
//! of the bank. The greatest plan and bank have the sides 0 to 383. The sides of the cap follow,
//! for every plan.

/// The low side of the cap. The cap of a vector is the multiplier of this side less that of the
/// high side.
pub const CAP_LOW: u16 = 384;

/// The high side of the cap. A vector that names neither side has no cap.
pub const CAP_HIGH: u16 = 385;
