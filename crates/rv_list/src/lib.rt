//! A listing of sources: each line with its address in the program and the bytes that it became there.
//!
//! It takes sources, the [`Map`](rv_map::Map) of the program that they became, in the order in which they were built, and
//! its [`Image`](rv_image::Image), and gives a text in the columns of GNU's `as -al`; addresses are the final ones.
//!
//! Main contract: every call is safe and ends, for any sources, map and image; what the text holds is tested against
//! GNU's assembler. It parses nothing: lines are bytes, and the map says which are statements.
//!
//! ```text
//! let sources = [Source { name: "a.s", text }];
//! let mut lines = SourceLines::new(alloc, &sources, &map, &image, ROWS)?;
//! while lines.next(&mut text)? {}
//! //    3 10000 13057000 \t_start: li a0, 7
//! ```
//!
//! Source: GNU as, "Enable Listings".
#![tactic(auto)]

mod bytes;
mod columns;
mod listing;

pub use listing::{ROWS, Source, SourceLines};
