//! Whole runs: from sources, or from objects, to an executable with its map, and from an executable to its end.
//!
//! Takes the bytes of sources, or of the files of objects, and how to link them; or the bytes of an executable, an
//! input and a limit of instructions. Gives an executable and its map's text, the file of a source's object, or a
//! run's console and end; or the first fault.
//!
//! The main contract: what `build` gives keeps `TheHeadline`: the run of the executable's bytes is the run of the
//! sources' statements at the addresses of the printed map, for every input and limit; and the listing of the executable
//! with the map is the sources' own (`rv_chain_laws/specs/Listed`). `build_exe` gives the same executable without the map's text.
//! `assemble_object` gives the file that is written of a source's object. `link_objects` takes such files, and those that
//! other tools wrote: it gives what is written of the link of the objects that they hold (`rv_chain_laws/specs/Linking`);
//! `link_objects_exe` gives the same executable without the map's text. `build_on` and its kin put the program on any ground
//! ([`Ground`]): the same is promised of it.
//! `builds_as_it_links` says that sources and the files of their objects come to the same executable and map, or to the
//! same fault of the link (`specs/Agreement`). `run_exec` gives the machine's run over the file's image. What is refused
//! has its reason in the clauses `refuses` (`specs/Refusals`, `specs/LinkRefusals`, and `Running` beside `Linking`): memory ran out, which
//! is `Fault::Memory` alone, or a fault names its cause. `sources_have_one_fault` and `files_have_one_fault` say that there
//! is one such fault, and none where there is a program (`specs/OneFault`).
//!
//! It must not know where bytes come from, nor how faults are told. In use:
//!
//!     let options = LinkOptions { text_start: 0x1_0000, relax: true, gc: false };
//!     let source = b".option norvc\n.globl _start\n_start: li a0, 7; li a7, 93; ecall\n";
//!     let built = build(alloc, &[source], options)?;
//!     let outcome = run_exec(alloc, built.exe.as_slice(), b"", 1_000_000)?;
//!     assert!(rt; outcome.end == End::Exited(7));
//!     let object = assemble_object(alloc, source)?;
//!     assert!(rt; link_objects(alloc, &[object.as_slice()], options)? == built);
#![tactic(auto)]

mod assembling;
mod building;
mod built;
mod law;
mod linking;
mod running;

pub use assembling::assemble_object;
pub use building::{build, build_exe, build_exe_on, build_on};
pub use built::Built;
pub use law::{
    builds_as_it_links, files_have_one_fault, raw_listings_are_accepted, sources_have_one_fault,
};
pub use linking::{link_objects, link_objects_exe, link_objects_exe_on, link_objects_on};
pub use running::run_exec;
pub use rv_expression::{SourceCode, SourceFault};
pub use rv_fault::Fault;
pub use rv_image::FileFault;
pub use rv_link::{Ground, GroundOptions, LinkFault, LinkOptions, ground_of, usual};
pub use rv_machine::{End, Outcome};
