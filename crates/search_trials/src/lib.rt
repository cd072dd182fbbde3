//! Tests of proof trees, of their checker and of the search. Worked trees, each fault and each
//! reason once. The search, the fallback search and the enumeration of all sets of items: on small
//! banks all three find a form of the same objective, or that there is none. And the subgradient
//! steps: on a bank that was worked out by hand they find a lower bound. It promises nothing upward
//! and holds no code of the product.
#![tactic(auto)]

#[cfg(test)]
mod agreement;
#[cfg(test)]
mod equal;
#[cfg(test)]
mod improving;
#[cfg(test)]
mod judging;
#[cfg(test)]
mod settings;
#[cfg(test)]
mod tree;
#[cfg(test)]
mod trials;
