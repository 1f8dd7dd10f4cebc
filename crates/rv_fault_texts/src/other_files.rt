//! Files of other kinds that are given in the place of a source.

/// The byte of a file of ELF that has its type (gABI, "ELF Header").
const TYPE: usize = 16;

/// Whether a file is of another kind.
pub fn is_other_file(file: &[u8]) -> bool {
    words_of_file(file).is_some()
}

/// What is said of a file that is no source at its first byte.
pub(crate) fn words_of_file(file: &[u8]) -> Option<&'static str> {
    if file.starts_with(b"!<arch>\n") {
        return Some(
            "this is an archive and no source: rv ld links the objects that ar x takes out",
        );
    }
    if !file.starts_with(b"\x7fELF") {
        return None;
    }
    match file.get(TYPE) {
        Some(1) => Some("this is an object and no source: rv ld links it"),
        Some(2) => Some("this is an executable and no source: rv run runs it, and rv dis lists it"),
        _ => Some("this is a file of ELF and no source"),
    }
}
