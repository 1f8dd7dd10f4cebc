//! What a list of sources means at a map.
//!
//! It takes the statements of sources (`rv_statement_laws`), their names and sections (`rv_unit_laws`) and a map
//! (`rv_map_laws`), all as plain data. It gives the definitions by which a built program is judged: where each statement stands
//! (`specs/Located`), its row and the values of its expressions (`Program`), what it does in one step (`Holes`, `Meaning`), the
//! instructions that stand for it (`Lines`), memory at the start (`Start`), when a map fits the sources (`Fits`), gives their
//! branches the least sizes (`Sized`, over `Sizes`), shows the calls as short as they can be (`Shortened`) and resolves their
//! names (`Resolves`), which sections nothing leads to (`Collected`), their run (`SourceRun`), and whether they have compressed
//! code (`Compressed`).
//!
//! Nothing here runs, and nothing here knows of executables, of the machine's run or of how a linker works.
//!
//! A contract that cites it:
//!
//! ```text
//! ghost use Rattle.rv_source_laws.specs.Fits.{Fits};
//!
//! pub fn exit7_fits()
//!     ensures { Fits (exit7 ∷ []) exit7_map 0x10000 }
//! {}
//! ```
//!
//! Source: RISC-V Unprivileged ISA 20191213; RISC-V Assembly Programmer's Manual; System V gABI, "Sections" and "Symbol
//! Table"; RISC-V ELF psABI, "Linker Relaxation".
#![tactic(auto)]
