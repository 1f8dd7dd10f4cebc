//! What the words of a command line ask for, as a job, or why they ask for nothing.
//!
//! It takes the words and gives a [`Job`](rv_job::Job), or the usage, or want of memory, as an error of `clap`: [`parse_job`]. One
//! table has the words, and a word is one function of its operands; the help and what shells complete words by
//! ([`completions`]) are made of the same functions.
//!
//! What is read, printed and completed is tested. Which numbers its words write is said by the clauses of `decimal` and
//! `text_start` (`specs/Numbers`); which options of an assembler it takes, by `specs/AssemblerOptions`. It must not know files,
//! nor how a job is done.
//!
//! ```text
//! let job = parse_job(alloc, &["rv", "dump", "prog"], None)?;   // Job::Dump { file: "prog" }
//! ```
#![tactic(auto)]

mod assembler_options;
mod builds;
mod cases;
mod commands;
mod files;
mod links;
mod numbers;
mod operands;
mod parsing;
mod runs;
mod shells;
mod sources;
mod words;

pub use parsing::parse_job;
pub use shells::completions;
