//! Tests of the office and of its journal over a disk in memory. The journal: tables of stops and
//! of failing calls, and files of each version. The office: what is found after a call of the disk
//! has failed and after a crash at each moment, each refusal with its value, and each fault of a
//! file. A migration: the same. All: what is on a device after a sync that failed and dropped what
//! it was to bring there. It promises nothing upward and holds no code of the product.
#![tactic(auto)]

#[cfg(test)]
mod audits;
#[cfg(test)]
mod cases;
#[cfg(test)]
mod counted_disk;
#[cfg(test)]
mod crashes;
#[cfg(test)]
mod equal;
#[cfg(test)]
mod expected;
#[cfg(test)]
mod failures;
#[cfg(test)]
mod files;
#[cfg(test)]
mod journal;
#[cfg(test)]
mod lists;
#[cfg(test)]
mod lossy_disk;
#[cfg(test)]
mod lost_moves;
#[cfg(test)]
mod lost_syncs;
#[cfg(test)]
mod migrations;
#[cfg(test)]
mod moves;
#[cfg(test)]
mod old_files;
#[cfg(test)]
mod openings;
#[cfg(test)]
mod outcome;
#[cfg(test)]
mod probes;
#[cfg(test)]
mod refusals;
#[cfg(test)]
mod rewriting;
#[cfg(test)]
mod rows;
#[cfg(test)]
mod serving;
#[cfg(test)]
mod sessions;
#[cfg(test)]
mod versions;
#[cfg(test)]
mod warm;
