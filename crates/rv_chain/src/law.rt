//! Sources are built as their objects are linked, and refused for one fault; raw listings are not refused.

ghost use Rattle.rv_chain.specs.Agreement.{BuildsAsItLinks};
ghost use Rattle.rv_chain.specs.OneFault.{SourcesHaveOneFault, FilesHaveOneFault};
ghost use Rattle.rv_chain.specs.Reassembled.{RawListingsAreAccepted};

use rv_assemble_laws::names_are_shown;
use rv_object_file_laws::{one_object, written_object_is_read};
use rv_parse_laws::{not_both, one_fault, one_reading};
use rv_raw_theorems::{listing_reads, raw_listings_have_no_fault, raw_objects_have_a_program};
use rv_unique_theorems::{
    objects_are_not_too_long, objects_have_files, objects_keep_it, one_object_of_statements,
    one_program, refused_for_one_reason, refused_has_no_program, statements_have_one_fault,
};

/// What `build` makes of sources, `link_objects` makes of the files of their objects: the same executable and the same map,
/// or a refusal for the same fault. Want of memory can come to either.
pub fn builds_as_it_links()
    ensures { BuildsAsItLinks }
{
    one_reading();
    one_fault();
    not_both();
    names_are_shown();
    one_object_of_statements();
    objects_are_not_too_long();
    statements_have_one_fault();
    objects_have_files();
    written_object_is_read();
    one_object();
    one_program();
    refused_has_no_program();
    refused_for_one_reason();
    objects_keep_it();
}

/// What `build` says of a refusal leaves no choice: sources that have a program, as all that it builds have, are refused for
/// want of memory alone, and others for that or for one fault.
pub fn sources_have_one_fault()
    ensures { SourcesHaveOneFault }
{
    one_reading();
    one_fault();
    not_both();
    names_are_shown();
    one_object_of_statements();
    objects_are_not_too_long();
    statements_have_one_fault();
    one_program();
    refused_has_no_program();
    refused_for_one_reason();
    objects_keep_it();
}

/// Nor does what `link_objects` says of one: files that are linked are refused for want of memory alone, and others for that
/// or for one fault.
pub fn files_have_one_fault()
    ensures { FilesHaveOneFault }
{
    one_object();
    one_program();
    refused_has_no_program();
    refused_for_one_reason();
    objects_keep_it();
}

/// What `build` says of a refusal says of a raw listing, built for the address of the segment that it lists: it is too
/// long for a source, or memory ran out.
pub fn raw_listings_are_accepted()
    ensures { RawListingsAreAccepted }
{
    raw_listings_have_no_fault();
    raw_objects_have_a_program();
    listing_reads();
    one_reading();
    not_both();
}
