//! The headline: when an executable does what its sources say, statement by statement, at the addresses of a map; and all
//! that a build or a link promises beside it.
//!
//! It takes what sources mean (`rv_source_laws`), what a linked program and an image are (`rv_image_laws`) and what the
//! machine does (`rv_isa_laws`), on whatever platform (`rv_board_laws`). It gives the definition that `build` promises
//! (`specs/Headline`), what a linked program owes to it (`Contents`) and what memory owes to it (`Realizes`); the
//! source run on a platform (`PlatformRun`); what the instructions of a statement come to (`Walks`); the listing of
//! sources, in which no byte occurs (`SourceListing`); and what is said of files of objects (`Objects`), of links and
//! builds (`Linking`, `Building`), of their listings (`Listed`) and of runs (`Running`). `rv_runs_theorems` has the
//! law.
//!
//! Nothing here runs.
//!
//! A contract that cites it:
//!
//! ```text
//! ghost use Rattle.rv_chain_laws.specs.Headline.{TheHeadline};
//!
//! pub fn build(alloc: Global, sources: &[&[u8]], options: LinkOptions) -> Result<Built, Fault>
//!     ensures { IfOk result (λ built. TheHeadline (map now_of sources.now) options.text_start options.relax options.gc built.exe.items built.map.items) }
//! ```
//!
//! Source: RISC-V Unprivileged ISA 20191213; RISC-V Assembly Programmer's Manual.
#![tactic(auto)]
