//! The limits of banks, plans, sessions, proof trees and journals.

/// The most items of a bank.
pub const ITEMS: u16 = 512;

/// The most points of the ability grid.
pub const GRID: u8 = 61;

/// The most response categories of an item.
pub const CATEGORIES: u8 = 5;

/// The most quantities of a bank.
pub const QUANTITIES: u8 = 8;

/// The greatest stimulus number.
pub const STIMULI: u8 = 64;

/// The most rows (constraints) of a plan.
pub const ROWS: u8 = 128;

/// The most nodes of a proof tree, and so the greatest budget.
pub const NODES: u16 = 4_095;

/// The most vectors of a proof tree.
pub const VECTORS: u8 = 255;

/// The most pairs of all vectors of a proof tree.
pub const PAIRS: u16 = 12_288;

/// The most pairs of one vector.
pub const VECTOR_PAIRS: u16 = 384;

/// The greatest multiplier.
pub const MULTIPLIER: u32 = 16_777_216;

/// The most sessions of a plan.
pub const SESSIONS: u32 = 65_536;

/// The greatest length of a journal in bytes.
pub const JOURNAL: u64 = 536_870_912;
