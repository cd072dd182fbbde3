//! Tests of a follower over an office, and of an office that ships to it: the worked session over
//! links and disks in memory. It promises nothing upward and holds no code of the product.
#![tactic(auto)]

#[cfg(test)]
mod links;
#[cfg(test)]
mod machines;
