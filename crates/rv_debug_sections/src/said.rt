//! What an object brings.

ghost use Rattle.std.specs.Prelude.{◌≡◌, ◌++◌, ◌∷◌, [], codes};
ghost use Rattle.rv_debug_laws.specs.Carried.{has_section};
ghost use Rattle.rv_debug_laws.specs.CarriedNames.{has_carried};

use crate::carried::first_carried;
use crate::named::{debug_section, section_names_in};
use crate::names::LINE;
use rv_elf::ElfView;

/// Whether an object has a section that stands behind the executable.
pub fn has_carried_sections(file: &[u8]) -> bool
    ensures { result ≡ has_carried file.now }
{
    match ElfView::open(file) {
        Ok(view) => first_carried(&view).is_some(),
        Err(_) => false,
    }
}

/// Whether an object has the lines of its code.
pub fn has_line_table(file: &[u8]) -> bool
    ensures { result ≡ has_section file.now (codes ".debug_line" ++ 0 ∷ []) }
{
    has_section(file, LINE)
}

/// Whether an object has a section of a name.
fn has_section(file: &[u8], name: &[u8]) -> bool
    ensures { result ≡ has_section file.now name.now }
{
    match ElfView::open(file) {
        Ok(view) => debug_section(&view, section_names_in(&view), name).is_some(),
        Err(_) => false,
    }
}
