//! Puts the section of a name into an object's file.

ghost use Rattle.std.specs.Prelude.{◌≡◌, ◌⊎◌, ◌<◌, ◌^◌, None, Some, IfOk, IfErr};
ghost use Rattle.rv_fault.specs.declared.file_fault.FileFault.TheVariants.{OutOfMemory};
ghost use Rattle.rv_object_laws.specs.Object.{Object as SaidObject, Progbits};
ghost use Rattle.rv_object_types.specs.Parts.{contents_of};
ghost use Rattle.rv_object_types.specs.Sections.{section_of};
ghost use Rattle.rv_object_types.specs.View.{object_of};
ghost use Rattle.rv_object_file_laws.specs.FirstFault.{first_fault};
ghost use Rattle.rv_object_file_laws.specs.ObjectOf.{ObjectOf};
ghost use Rattle.rv_object_file_laws.specs.Written.{HasFile, file_of};
ghost use Rattle.rv_debug_laws.specs.SourceNames as laws;
ghost use Rattle.rv_debug.specs.NameViews.{called};

use rv_debug_laws::source_is_read;
use rv_fault::FileFault;
use rv_object_file_laws::one_object;
use rv_object_reader::read;
use rv_object_types::{Contents, Object, Section};
use rv_object_writer::write;
use std::alloc::{AllocError, Global};
use std::borrow::CowSlice;

/// The name of the section.
pub(crate) const SECTION_NAME: &[u8] = b".rv.source";

/// The file of the object of a file, with the name of its source.
pub fn with_source(
    alloc: Global,
    file: &[u8],
    directory: &[u8],
    path: &[u8],
) -> Result<Vec<u8>, FileFault>
    // It is the file of the same object, with one section behind its own.
    ensures written { IfOk result (λ named. (o : SaidObject) → ObjectOf file.now o
        → named.items ≡ file_of (laws.with_source (called directory.now path.now) o)) }
    // Where the fields of a file can hold what that has, it is read so, and names the source.
    ensures read { IfOk result (λ named. (o : SaidObject) → ObjectOf file.now o
        → HasFile (laws.with_source (called directory.now path.now) o)
        → (first_fault named.items ≡ None)
        × ObjectOf named.items (laws.with_source (called directory.now path.now) o)) }
    ensures source { IfOk result (λ named. (o : SaidObject) → ObjectOf file.now o
        → HasFile (laws.with_source (called directory.now path.now) o)
        → laws.IsSourceName (called directory.now path.now)
        → laws.source_of named.items ≡ Some (called directory.now path.now)) }
    ensures good { IfOk result (λ named. first_fault file.now ≡ None) }
    ensures refuses { IfErr result
        (λ fault. (fault ≡ OutOfMemory) ⊎ (first_fault file.now ≡ Some fault)) }
{
    one_object();
    source_is_read();
    let object = read(alloc, file)?;
    let with_name = named_object(alloc, object, directory, path)?;
    let named = write(alloc, &with_name)?;
    Ok(named)
}

/// An object with the name of its source.
fn named_object<'a>(
    alloc: Global,
    object: Object<'a>,
    directory: &[u8],
    path: &[u8],
) -> Result<Object<'a>, AllocError>
    ensures { IfOk result (λ named.
        object_of named ≡ laws.with_source (called directory.now path.now) (object_of object.entry)) }
{
    let Object {
        sections,
        symbols,
        rows,
        rvc,
    } = object;
    let mut sections = sections;
    sections.push(source_section(alloc, directory, path)?)?;
    Ok(Object {
        sections,
        symbols,
        rows,
        rvc,
    })
}

/// The section of a name.
fn source_section<'a>(
    alloc: Global,
    directory: &[u8],
    path: &[u8],
) -> Result<Section<'a>, AllocError>
    ensures { IfOk result
        (λ section. section_of section ≡ laws.source_section (called directory.now path.now)) }
{
    let bytes = name_bytes(alloc, directory, path)?;
    Ok(Section {
        name: SECTION_NAME,
        loaded: false,
        executable: false,
        writable: false,
        contents: Contents::Progbits(CowSlice::Owned(bytes)),
        alignment: 1,
        relocations: Vec::new(alloc),
    })
}

/// The bytes of a name: the directory and the path, each with a zero behind it.
fn name_bytes(alloc: Global, directory: &[u8], path: &[u8]) -> Result<Vec<u8>, AllocError>
    ensures { IfOk result
        (λ bytes. bytes.items ≡ laws.name_bytes (called directory.now path.now)) }
{
    let mut bytes = Vec::from_slice(alloc, directory)?;
    bytes.push(0)?;
    bytes.extend_from_slice(path)?;
    bytes.push(0)?;
    Ok(bytes)
}
