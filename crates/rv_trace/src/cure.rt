//! What cures the end of a run, as the table of faults and ends has it.

use crate::ending::Ending;
use crate::parts::Part::Text;
use crate::parts::put_parts;
use rv_fault_texts::explanation;
use rv_machine::End;
use std::alloc::AllocError;

/// What begins the cure of an entry.
const CURE: &str = "\nCure: ";

/// Adds the cure of an end; nothing for an exit, which is what a program asks for, or for an end that the words ask for.
pub(crate) fn put_cure(text: &mut Vec<u8>, ending: Ending) -> Result<(), AllocError> {
    if matches!(ending, Ending::By(End::Exited(_)) | Ending::Reached) {
        return Ok(());
    }
    let Some(entry) = explanation(ending.name()) else {
        return Ok(());
    };
    put_parts(
        text,
        &[Text("cure\n  "), Text(last_part(entry)), Text("\n")],
    )
}

/// What stands in an entry behind the beginning of its cure.
fn last_part(entry: &'static str) -> &'static str {
    match entry.split_once(CURE) {
        Some((_, cure)) => cure,
        None => entry,
    }
}
