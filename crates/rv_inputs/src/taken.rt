//! What a link takes of files.

ghost use Rattle.std.specs.Prelude.{◌≡◌, ◌<◌, ℕ, List, length, map, Some, IfOk, IfErr};
ghost use Rattle.std.specs.List.{slice_get};
ghost use Rattle.rv_inputs.specs.Views.{object_of};
ghost use Rattle.rv_inputs.specs.Taken.{AreObjectsTaken, IsInputRefused};

use crate::fault::InputFault;
use crate::gathering::gather;
use crate::input::Input;
use crate::selection::taken_numbers;
use std::alloc::{AllocError, Global};

/// An object that a file offers.
#[derive(Clone, Copy, Drop)]
pub struct TakenObject<'a> {
    /// The number of the file, from 1.
    pub file: usize,
    /// The name of the member that it is, if the file is an archive.
    pub member: Option<&'a [u8]>,
    /// Its bytes.
    pub bytes: &'a [u8],
}

/// The objects that a link takes of its files, in the order in which it takes them.
pub fn taken_objects<'a>(
    alloc: Global,
    inputs: &[Input<'a>],
) -> Result<Vec<TakenObject<'a>>, InputFault<'a>>
    ensures taken { IfOk result (λ taken. AreObjectsTaken inputs.now (map object_of taken.items)) }
    ensures refuses { IfErr result (IsInputRefused inputs.now) }
{
    let gathered = gather(alloc, inputs)?;
    let numbers = taken_numbers(alloc, &gathered)?;
    let taken = numbered(alloc, gathered.objects.as_slice(), numbers.as_slice())?;
    Ok(taken)
}

/// The objects of these numbers.
fn numbered<'a>(
    alloc: Global,
    objects: &[TakenObject<'a>],
    numbers: &[usize],
) -> Result<Vec<TakenObject<'a>>, AllocError>
    requires { (i n : ℕ) → slice_get numbers.now i ≡ Some n → n < length objects.now }
    ensures { IfOk result (λ taken. map (slice_get (map object_of objects.now)) numbers.now
        ≡ map (λ o. Some o) (map object_of taken.items)) }
{
    let mut taken = Vec::with_capacity(alloc, numbers.len())?;
    for i in 0..numbers.len() {
        taken.push(objects[numbers[i]])?;
    }
    Ok(taken)
}
