//! Tests of histories across their crates: draws at the edge of the inequality, records with each
//! kind of fault, books of worked examinations with each reason why a record may not follow, and a
//! book of 10,000 sessions. It promises nothing upward and holds no code of the product.
#![tactic(auto)]

#[cfg(test)]
mod bands;
#[cfg(test)]
mod books;
#[cfg(test)]
mod draws;
#[cfg(test)]
mod equal;
#[cfg(test)]
mod records;
#[cfg(test)]
mod trials;
#[cfg(test)]
mod worked;
