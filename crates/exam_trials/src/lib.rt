//! Tests of the program as a whole over files and a sink in memory: worked sessions, the statuses
//! and their texts, and each failing call; and journals of the first version, which are refused, or
//! moved; and records that are shipped to a follower. What is expected is in the worked cases, or
//! was worked out by hand. And of the drill: its texts against those of a second source, its
//! summary, and the lines that it prints. It promises nothing upward and holds no code of the
//! product.
#![tactic(auto)]

#[cfg(test)]
mod bands;
#[cfg(test)]
mod bank_l;
#[cfg(test)]
mod bookings;
#[cfg(test)]
mod doors;
#[cfg(test)]
mod drill_lines;
#[cfg(test)]
mod drill_summaries;
#[cfg(test)]
mod drill_texts;
#[cfg(test)]
mod equal;
#[cfg(test)]
mod faults;
#[cfg(test)]
mod journals;
#[cfg(test)]
mod links;
#[cfg(test)]
mod lists;
#[cfg(test)]
mod outcome;
#[cfg(test)]
mod series;
#[cfg(test)]
mod sessions;
#[cfg(test)]
mod statuses;
#[cfg(test)]
mod texts;
#[cfg(test)]
mod versions;
