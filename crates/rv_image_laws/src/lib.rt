//! What an image is, which executable a linked program becomes, and which image a file is loaded as.
//!
//! It takes the bytes of any file and says which image they load ([`ImageOf`]) or which fault they have first
//! ([`FirstFault`]). It takes a linked program ([`Linked`]) and says what its executable is ([`Executable`], `exe_of`). It says
//! what memory holds as an image lays it out ([`Memory`]).
//!
//! Main definitions: `Image`, `Linked`, `ImageOf`, `first_fault`, `exe_of`, `mem_of`. It must not know statements or
//! instructions: contents are bytes.
//!
//! Nothing here runs.
//!
//! ```text
//! load_tests file                all that a file is tested for, in order: (test, fault)
//! exe_of linked                  header, program headers, contents
//! ```
//!
//! [`Executable`]: ../specs/Executable.antt
//! [`FirstFault`]: ../specs/FirstFault.antt
//! [`ImageOf`]: ../specs/ImageOf.antt
//! [`Linked`]: ../specs/Linked.antt
//! [`Memory`]: ../specs/Memory.antt
//!
//! Source: System V gABI, "ELF Header" and "Program Header"; RISC-V ELF psABI.
#![tactic(auto)]
