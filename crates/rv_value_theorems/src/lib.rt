//! The value of an expression is plain arithmetic on 64 bits, with each name at its address.
//!
//! Two definitions meet here. `value_of` (`rv_expression_laws`) keeps what an assembler keeps: a constant, a constant and a symbol, or
//! a constant and a difference of two, and `value` (`rv_source_laws`) adds addresses at the end. `plain` (`specs/Plain`) knows
//! nothing of these: each name is a number from the start, and each operator is applied to numbers. So it can be read aloud, and
//! whoever agrees with it need not read the other.
//!
//! [`plain_value`] is the law of expressions, for any meanings of names and any numbers that agree with them (`specs/Agreement`);
//! [`plain_constant`] that of constants alone. [`sorted_form`] says which expressions have a value: those that keep numbers,
//! places and distances apart (`specs/Forms`). [`values_are_plain`] is the law of sources: where a map fits them, the value of
//! each expression of each statement is plain arithmetic with the addresses of the map (`specs/Sites`).
//!
//! A wrong line in `Values` leaves `rv_expression_laws` proved and is refused here. That was tried with seven: a `difference` that adds
//! a constant where it should take it off, one wrong line of `sum`, three of `apart` and one of `~` break [`plain_value`]; a
//! `sum` that refuses a symbol and a number breaks [`sorted_form`]. No must-fail edit says so: an edit changes one crate alone.
//!
//! Must not know how bytes are made of values: no field, no relocation and no object. Nothing here runs.
//!
//! Source: GNU as, "Expressions".
#![tactic(auto)]

mod laws;

pub use laws::{plain_constant, plain_fits, plain_value, sorted_form, values_are_plain};
