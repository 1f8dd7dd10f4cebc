//! Laws of lists, options, truth values and numbers that the standard library has not: what they say names nothing of this
//! repository, and each says it for any type where it can.
//!
//! A file of `proofs` is for a subject, and cites those before it in `proofs/Lib.antt`. Look here, and with `rt lemma` in the
//! standard library, before you prove one beside a function.
//!
//! Nothing here runs.
#![tactic(auto)]
