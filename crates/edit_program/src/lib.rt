//! The program `svcbedit` as a library: its words, what each of its commands answers, and a run over any source and any
//! sink.
#![tactic(auto)]

mod command_answers;
mod data_bounds;
mod edit;
mod edit_input;
mod generate;
pub mod laws;
mod pushes;
mod report;
pub mod run;
mod run_error;
mod scan;
mod show;
mod token_pushes;
mod words;
