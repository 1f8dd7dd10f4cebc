//! Worked programs, and worked sources that are refused: what the definitions say of them.
//!
//! It takes the definitions of what sources mean (`rv_source_laws`), of why they are refused (`rv_assemble_laws`), of
//! the headline (`rv_chain_laws`) and of executables (`rv_image_laws`), and shows of whole sources (`specs/Exit7`,
//! `Data`, `Echo`, `CodeAlignment`, `Parcels`, `Refused`) and of code (`KnownCode`, `OpenCode`, `BranchSizes`) what they come
//! to: runs, maps, bytes, faults. Each contract is closed, so that the check computes it; a definition that said
//! something else would fail here. Nothing here runs, and no other crate stands on this one.
//!
//! Its main contract is `exit7_executes`: the machine's run over the executable of the program `exit7` exits with 7.
//!
//! ```text
//! pub fn exit7_is_limited()
//!     ensures enough { source_run (exit7 ∷ []) exit7_map [] 3 ≡ exits 7 }
//!     ensures short { source_run (exit7 ∷ []) exit7_map [] 2 ≡ record { console = []; «end» = Limit } }
//! {}
//! ```
#![tactic(auto)]

mod code;
mod refused;
mod worked;

pub use code::{
    branches_are_least, branches_have_three_sizes, code_is_least, jumps_are_least,
    long_constants_are_two, parcels_are_named, symbols_take_words,
};
pub use refused::{
    distances_name_labels, first_ones_count, known_code_is_sound, low_parts_fit,
    open_code_is_sound, other_ranges_end, padding_is_code, parcels_end, ranges_end,
    scratch_registers_are_used, targets_are_addresses, upper_parts_end, worked_are_sound,
};
pub use worked::{
    code_is_aligned, differences_fit, differences_spell, echo_runs_on_the_board, exit7_executes,
    exit7_fits, exit7_is_limited, exit7_is_written, exit7_links, exit7_lists, exit7_loads,
    exit7_resolves, exit7_runs, exit7_shows, exit255_runs, figures_fit, figures_resolve,
    figures_spell, hello_fits, hello_holds, hello_resolves, hello_runs, parcel7_runs,
    two_files_run,
};
