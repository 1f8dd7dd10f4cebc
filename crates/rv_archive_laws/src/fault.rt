//! Why a file is refused as an archive.

use thiserror::Error;

/// Why a file is no archive that can be linked. The faults are looked for in the order of the parts of a file, and the
/// first is answered.
#[derive(Clone, Copy, Debug, Drop, Error)]
pub enum ArchiveFault {
    /// The file ends before a member's head or contents do.
    #[error("the file ends before a member's head or contents do")]
    Truncated,
    /// It does not begin with `!<arch>` and a line's end.
    #[error("it does not begin with !<arch>")]
    BadMagic,
    /// It is a thin archive: its members stand in other files.
    #[error("it is a thin archive, whose members stand in other files")]
    ThinArchive,
    /// A member's head has no end mark, or its size is no number.
    #[error("a member's head has no end mark, or its size is no number")]
    BadHead,
    /// A member's name has no end, or is none that a message can show.
    #[error("a member's name has no end, or is none that a message can show")]
    BadName,
    /// Names or index are those of BSD's archives.
    #[error("its names or its index are those of BSD's archives")]
    BsdArchive,
    /// It has members and no index.
    #[error("it has members and no index")]
    NoIndex,
    /// Its index has no end, or names a place where no member stands.
    #[error("its index has no end, or names a place where no member stands")]
    BadIndex,
}
