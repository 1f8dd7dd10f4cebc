//! What is written is loaded again.

ghost use Rattle.std.specs.Prelude.{◌≡◌, MatchResult};
ghost use Rattle.rv_fault.specs.declared.file_fault.FileFault.TheVariants.{OutOfMemory};
ghost use Rattle.rv_image_laws.specs.Executable.{linked_image};
ghost use Rattle.rv_image.specs.Views.{image_of, linked_of};

use crate::image::Image;
use crate::linked::Linked;
use crate::loading::load;
use crate::writing::write_exec;
use rv_fault::FileFault;
use std::alloc::Global;

/// The image of a linked program: its executable is written, and loaded again. Nothing but want of
/// memory stands against it.
pub fn reload(alloc: Global, linked: &Linked) -> Result<Image, FileFault>
    ensures { MatchResult result
        (λ image. image_of image ≡ linked_image (linked_of linked.now))
        (λ fault. fault ≡ OutOfMemory) }
{
    let _entry = linked.entry();
    let file = write_exec(alloc, linked)?;
    Ok(load(alloc, &file)?)
}
