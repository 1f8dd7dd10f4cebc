//! What is said of a fault of the link.

use rv_fault::LinkFault;

/// What is said of a fault whatever the sources are.
pub fn link_words(fault: &LinkFault) -> &'static str {
    match fault {
        LinkFault::Overflow =>
            "a distance or an address does not fit its place: 'rv explain L1' has the reaches",
        LinkFault::OddTarget =>
            "a branch, a jump or a call goes to an odd address; instructions stand at even ones",
        LinkFault::DanglingPcrel => "%pcrel_lo names a label at which there is no %pcrel_hi",
        LinkFault::AlignmentShort => "an alignment has no room for its padding",
        LinkFault::Undefined(_) =>
            "the name means nothing here: a source has to define it in a loaded section, with .globl",
        LinkFault::Duplicate(_) =>
            "one source alone may make a name global and define it; .weak in one gives way",
        LinkFault::EntryMissing =>
            "a program begins at _start: one source needs .globl _start, and the label in .text",
        LinkFault::ImageTooLarge =>
            "the program has over 256 MiB, passes 2^64, or meets the stack at 0x3ff00000: --origin puts it behind",
        LinkFault::BadTextStart =>
            "a text starts at a multiple of 4096 below 0x3ff00000; --origin also takes 0x40000000 and above",
        LinkFault::TooManyFiles => "1,024 files are the most",
        LinkFault::OutOfMemory => "out of memory",
    }
}
