//! For people: what the text of a source tells of a fault, in words, and where it stands there.
//!
//! It takes sources and the code of a fault at a byte, or of a statement, and gives its place, a sentence of it, the lines that
//! define or use a name, as a [`Remark`], and the source without what is faulty; it takes sources and their map, and gives sizes and
//! warnings; and it takes the code of a fault or the name of a run's end, and gives its cause, an example and the cure.
//!
//! Main functions: [`place_at_byte`], [`place_in_statement`], [`put_sentence`], [`closing_of`], [`explanation`]. They are proved to be safe; what they
//! say is tested. It must not know how sources are assembled or built, nor where they come from.
//!
//! ```text
//! let text = explanation("E14")?;                   // E14 ImmediateRange, its cause, an example, its cure
//! let place = place_in_statement(alloc, source, SourceCode::ImmediateRange, 5, 80)?;
//! ```
#![tactic(auto)]

mod blanking;
mod blocks;
mod closing;
mod entries;
mod excerpt;
mod expected;
mod forms;
mod link_wording;
mod meant;
mod names;
mod near_names;
mod near_words;
mod occurrences;
mod operands;
mod other_extensions;
mod other_files;
mod other_words;
mod parcel_numbers;
mod parts;
mod place;
mod ranks;
mod references;
mod refused_names;
mod remark;
mod sentences;
mod statements;
mod table;
mod tokens;
mod warnings;

pub use blanking::{blank, directs, is_of_macro, without_macro, without_sort};
pub use blocks::Blocks;
pub use closing::{Closing, closing_of};
pub use entries::{explanation, titles};
pub use excerpt::{Place, put_bytes};
pub use link_wording::link_words;
pub use near_names::{NearName, changes_between, near_name};
pub use occurrences::section_before;
pub use other_files::is_other_file;
pub use place::{Expected, FaultPlace, place_at_byte, place_in_statement};
pub use ranks::statement_in_line;
pub use references::{show_definitions, show_undefined};
pub use refused_names::{follows_from, put_refused_names};
pub use remark::{Remark, Spot};
pub use sentences::put_sentence;
pub use statements::symbol_at;
pub use tokens::{LineToken, Sort, part};
