//! How messages show the faults of archives.
//!
//! No name is also that of another fault, as `F1 Truncated`, because `rv explain` takes names as well.

ghost use Rattle.std.specs.Prelude.{◌≡◌};
ghost use Rattle.rv_archive.specs.Texts.{fault_number, fault_name};

use rv_archive_laws::ArchiveFault;

/// The number after the `A`, 1 to 8.
pub fn fault_number(fault: ArchiveFault) -> u32
    ensures { result ≡ fault_number fault }
{
    match fault {
        ArchiveFault::Truncated => 1,
        ArchiveFault::BadMagic => 2,
        ArchiveFault::ThinArchive => 3,
        ArchiveFault::BadHead => 4,
        ArchiveFault::BadName => 5,
        ArchiveFault::BsdArchive => 6,
        ArchiveFault::NoIndex => 7,
        ArchiveFault::BadIndex => 8,
    }
}

/// The name that messages show after the number.
pub fn fault_name(fault: ArchiveFault) -> &'static str
    ensures { result.now ≡ fault_name fault }
{
    match fault {
        ArchiveFault::Truncated => "TruncatedArchive",
        ArchiveFault::BadMagic => "NotArchive",
        ArchiveFault::ThinArchive => "ThinArchive",
        ArchiveFault::BadHead => "BadHead",
        ArchiveFault::BadName => "BadName",
        ArchiveFault::BsdArchive => "BsdArchive",
        ArchiveFault::NoIndex => "NoIndex",
        ArchiveFault::BadIndex => "BadArchiveIndex",
    }
}
