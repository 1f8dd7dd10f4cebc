//! The name of a source.

ghost use Rattle.std.specs.Prelude.{◌≡◌, ◌||◌, bytes_eq, IfOk};
ghost use Rattle.rv_debug_laws.specs.SourceNames as laws;
ghost use Rattle.rv_debug.specs.NameViews.{plain_source};

use std::alloc::{AllocError, Global};

/// The directory in which a source was assembled, and the path by which it was named there.
#[derive(Drop)]
pub struct SourceName {
    pub directory: Vec<u8>,
    pub path: Vec<u8>,
}

/// The path by which a source is found from a directory: its own, unless it was assembled elsewhere.
pub fn path_from(alloc: Global, directory: &[u8], name: &SourceName) -> Result<Vec<u8>, AllocError>
    ensures { IfOk result
        (λ path. path.items ≡ laws.path_from directory.now (plain_source name.now)) }
{
    if is_found_from(directory, name) {
        return Vec::from_slice(alloc, name.path.as_slice());
    }
    let mut path = Vec::from_slice(alloc, name.directory.as_slice())?;
    path.push(b'/')?;
    path.extend_from_slice(name.path.as_slice())?;
    Ok(path)
}

/// Whether a source is found from a directory by its path alone.
fn is_found_from(directory: &[u8], name: &SourceName) -> bool
    ensures { result ≡ (laws.is_absolute name.now.path.items
        || bytes_eq name.now.directory.items directory.now) }
{
    is_absolute(name.path.as_slice()) || name.directory.as_slice() == directory
}

/// Whether a path begins at the root.
fn is_absolute(path: &[u8]) -> bool
    ensures { result ≡ laws.is_absolute path.now }
{
    match path.first() {
        Some(byte) => *byte == b'/',
        None => false,
    }
}
