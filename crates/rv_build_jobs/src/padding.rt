//! Eight bytes behind the constants, the variables and the zeros of a program.
//!
//! GCC loads the last bytes of an aligned object in one piece with those behind it, which lie outside of a segment where the
//! object is the last one. A source of its own, behind all others, has the bytes: so a program that is padded is a program of
//! sources like any other, and its map has the rows of this one.

/// The name of the source, where one is shown.
pub(crate) const NAME: &str = "--pad-ends";

/// The source.
pub(crate) const SOURCE: &[u8] = b".section .rodata
.space 8
.data
.space 8
.bss
.space 8
";
