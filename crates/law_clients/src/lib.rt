//! Callers that prove promises of the libraries from public clauses and laws alone: what is printed, laid out or pushed
//! is read back, and data is compared in canonical order. The contract of each function is a promise at the values that
//! it is given; its body calls the laws that give it.
#![tactic(auto)]

mod entries;
pub mod layouts;
pub mod orders;
pub mod rebuilding;
#[cfg(test)]
mod tests;
pub mod texts;
