//! What the map of an executable is, and what text it has: regions, globals, sections that collection dropped, and rows.
//!
//! A map ([`Map`]) says where the parts of a program stand. Its text has one line for each of them ([`Text`]), and its numbers
//! and names are those that a text can show ([`Limits`]). Beside it stand the names that the linker gives ([`Globals`]) and the
//! region to which a section goes by its flags ([`Regions`]). [`Region`], [`Row`] and [`SectionId`] are types that definitions
//! and code share.
//!
//! Nothing here runs.
//!
//! [`Map`]: ../specs/Map.antt
//! [`Text`]: ../specs/Text.antt
//! [`Limits`]: ../specs/Limits.antt
//! [`Globals`]: ../specs/Globals.antt
//! [`Regions`]: ../specs/Regions.antt
//!
//! Source: System V gABI, "Special Sections", "Symbol Table".
#![tactic(auto)]

mod map;

pub use map::{Region, Row, SectionId};
