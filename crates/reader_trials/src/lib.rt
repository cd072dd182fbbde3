//! Tests of the readers, and of what they read.
//!
//! Banks, plans and scripts are read from texts. The tests compare what is read, each fault with
//! its place, and what a source that fails leads to. They compare the lines of replies. Drafts of
//! plans, forms, item sets and the posterior mode are tested as values.
//!
//! Most cases are rows of constant tables. What is expected is from the rules of the formats, or
//! was worked out by hand. If a value that a test needs can't be made, the test fails there.
//!
//! The crate promises nothing upward and has no code of the product.
#![tactic(auto)]

#[cfg(test)]
mod ability;
#[cfg(test)]
mod bands;
#[cfg(test)]
mod bank;
#[cfg(test)]
mod bank_faults;
#[cfg(test)]
mod draft;
#[cfg(test)]
mod draft_faults;
#[cfg(test)]
mod equal;
#[cfg(test)]
mod forms;
#[cfg(test)]
mod plan;
#[cfg(test)]
mod plan_faults;
#[cfg(test)]
mod reply;
#[cfg(test)]
mod script;
#[cfg(test)]
mod sets;
#[cfg(test)]
mod source;
