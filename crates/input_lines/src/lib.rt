//! What the commands of a program that reads lines share: the lines of an input with the numbers, octets and tokens in
//! them, the first fault of an input, and the answer that a command gives.
#![tactic(auto)]

pub mod exit_status;
pub mod faults;
pub mod hexadecimal;
pub mod lines;
pub mod numbers;
pub mod report;
pub mod tokens;
