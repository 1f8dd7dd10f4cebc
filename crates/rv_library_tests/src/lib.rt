//! The library, call by call: the manual's page for those who build on it.
//!
//! Each crate is one layer with a few calls, and this crate makes each of them as a user would. [`whole`] goes through
//! all layers in thirty lines: two sources are assembled, linked, written, loaded, listed and run. The other modules stay
//! with one layer each, from the bottom up:
//!
//! | Module | Shows |
//! | --- | --- |
//! | [`code`] | instructions as words and parcels, and the instructions of a pseudo-instruction |
//! | [`sources`] | tokens, expressions, statements, and what a source defines |
//! | [`files`] | objects, executables and maps as bytes, and the records of any ELF file |
//! | [`links`] | the value of a relocation, its field, how long calls and paddings are, and the passes that find this |
//! | [`accesses`] | loads and stores of a memory, over the ends of its pages and of its rights |
//! | [`runs`] | single steps, every end of a run, and whole runs |
//! | [`streams`] | runs over streams, also over those that give and take little, nothing, or fail |
//! | [`whole`] | all layers in a row, and the calls that do it at once |
//!
//! What allocates takes an allocator first, and may answer that memory ran out; all else that is refused has a fault with
//! a code. What a call promises stands above it in its crate, as its contract. What a program shows is no test here but a
//! case in `tests/`: a test is proved too, so that each assertion and each way out costs.
#![tactic(auto)]

#[cfg(test)]
mod accesses;
#[cfg(test)]
mod code;
#[cfg(test)]
mod files;
#[cfg(test)]
mod links;
#[cfg(test)]
mod runs;
#[cfg(test)]
mod sources;
#[cfg(test)]
mod streams;
#[cfg(test)]
mod whole;
