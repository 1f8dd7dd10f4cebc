//! The parts of an object, lent by its file.

ghost use Rattle.std.specs.Prelude.{◌≡◌, ◌==◌, ◌%◌, [], None, unwrap_or, IfOk};
ghost use Rattle.rv_elf_laws.specs.Fields.{number_in, e_flags};
ghost use Rattle.rv_object_types.specs.Parts.{contents_of};
ghost use Rattle.rv_object_file_laws.specs.ObjectOf.{binding_in};
ghost use Rattle.rv_object_file_laws.specs.Parts.{contents_in, is_writable, name_of};
ghost use Rattle.rv_object_file_laws.specs.FirstFault.{first_fault};
ghost use Rattle.rv_object_reader.specs.Names.{names_table};

use crate::strings::Strings;
use rv_elf::{
    EF_RISCV_RVC, ElfView, SHF_WRITE, SHT_NOBITS, SHT_NOTE, STB_LOCAL, STB_WEAK, SectionIndex,
};
use rv_elf_laws::{SectionHeader, Symbol};
use rv_object_types::{Binding, Contents};
use std::alloc::{AllocError, Global};
use std::borrow::CowSlice;

/// Whether the file has compressed code.
pub(crate) fn is_compressed(view: &ElfView<'_>) -> bool
    ensures { result ≡ (number_in e_flags 0 view.now.file.now % 2 == 1) }
{
    view.header().e_flags / EF_RISCV_RVC % 2 == 1
}

/// Whether a program may write to the section.
pub(crate) fn is_writable(header: &SectionHeader) -> bool
    ensures { result ≡ is_writable header.now }
{
    header.sh_flags / SHF_WRITE % 2 == 1
}

/// What the section of this header has in its file.
pub(crate) fn contents<'a>(view: &ElfView<'a>, header: &SectionHeader) -> Contents<'a>
    ensures { contents_of result ≡ contents_in view.now.file.now header.now }
{
    if header.sh_type == SHT_NOBITS {
        return Contents::Nobits(header.sh_size);
    }
    let bytes = CowSlice::Borrowed(view.contents(header));
    if header.sh_type == SHT_NOTE {
        return Contents::Note(bytes);
    }
    Contents::Progbits(bytes)
}

/// Who may name a symbol.
pub(crate) fn binding(symbol: &Symbol) -> Binding
    ensures { result ≡ binding_in symbol.now }
{
    let number = symbol.st_info / 16;
    if number == STB_LOCAL {
        Binding::Local
    } else if number == STB_WEAK {
        Binding::Weak
    } else {
        Binding::Global
    }
}

/// The names of the sections; none where the file has no names.
#[tactic(auto, using(crate::proofs::TablesLemmas::names_within))]
pub(crate) fn section_names<'a>(
    alloc: Global,
    view: &ElfView<'a>,
) -> Result<Strings<'a>, AllocError>
    requires { first_fault view.now.file.now ≡ None }
    ensures { IfOk result (λ names. names.table.now ≡ names_table view.now.file.now) }
{
    let index = view.header().e_shstrndx;
    if index == 0 {
        return Strings::of(alloc, &[]);
    }
    Strings::of(alloc, view.section(SectionIndex(index)))
}

/// The name of the section of this header.
pub(crate) fn name<'a>(view: &ElfView<'_>, names: &Strings<'a>, header: &SectionHeader) -> &'a [u8]
    requires { names.now.table.now ≡ names_table view.now.file.now }
    ensures { result.now ≡ unwrap_or (name_of view.now.file.now header.now) [] }
{
    names.name(header.sh_name)
}
