//! What a build gives.

ghost use Rattle.std.specs.Prelude.{◌≡◌, IfOk, IfErr};
ghost use Rattle.rv_map_laws.specs.Text.{map_text};
ghost use Rattle.rv_image_laws.specs.Executable.{exe_of};
ghost use Rattle.rv_image.specs.Views.{linked_of};
ghost use Rattle.rv_fault.specs.declared.fault.Fault.TheVariants.{Memory};

use rv_fault::Fault;
use rv_image::{Linked, write_exec};
use std::alloc::Global;

/// The bytes of an executable and of its map.
#[derive(PartialEq, Eq, Drop)]
pub struct Built {
    /// The bytes of an ELF file.
    pub exe: Vec<u8>,
    /// The text of its map.
    pub map: Vec<u8>,
}

impl Built {
    /// What is written of a linked program.
    pub(crate) fn of(alloc: Global, linked: &Linked) -> Result<Self, Fault>
        ensures exe { IfOk result (λ built. built.exe.items ≡ exe_of (linked_of linked.now)) }
        ensures map { IfOk result (λ built. built.map.items ≡ map_text (linked_of linked.now).map) }
        ensures refuses { IfErr result (λ fault. fault ≡ Memory) }
    {
        let exe = write_exec(alloc, linked)?;
        let map = rv_map::write(alloc, &linked.map)?;
        Ok(Built { exe, map })
    }
}
