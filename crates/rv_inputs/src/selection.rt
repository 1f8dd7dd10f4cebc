//! Which of the objects that files offer a link takes.

ghost use Rattle.std.specs.Prelude.{◌≡◌, ◌<◌, ℕ, Some, None, length, IfOk, IfErr, OnOk};
ghost use Rattle.std.specs.List.{slice_get};
ghost use Rattle.rv_object_file_laws.specs.FirstFault.{first_fault};
ghost use Rattle.rv_object_file_laws.specs.ObjectOf.{ObjectOf};
ghost use Rattle.rv_object_laws.specs.Object.{Object as SaidObject};
ghost use Rattle.rv_inputs.specs.Plain.{plain_names};
ghost use Rattle.rv_inputs.specs.Names.{names_said};
ghost use Rattle.rv_inputs.specs.Taken.{AreTakenOf, IsUnread, IsUnreadIn};
ghost use Rattle.rv_inputs.specs.Views.{gathering_of, object_of};
ghost use Rattle.rv_inputs.specs.Whole.{IsInOrder};

use crate::fault::InputFault;
use crate::gathering::Gathered;
use crate::names::names_in;
use crate::object_names::ObjectNames;
use crate::search::Search;
use crate::taken::TakenObject;
use rv_fault::FileFault;
use rv_object_reader::read;
use std::alloc::Global;

/// The name for which a link asks from the start.
const WANTED: &[u8] = b"_start";

/// The numbers of the objects that a link takes of what files offer, in the order in which it takes them.
pub(crate) fn taken_numbers<'a>(
    alloc: Global,
    gathered: &Gathered<'a>,
) -> Result<Vec<usize>, InputFault<'a>>
    requires { IsInOrder (gathering_of gathered.now) }
    ensures takes { IfOk result (λ numbers. AreTakenOf (gathering_of gathered.now) numbers.items) }
    ensures within { IfOk result (λ numbers. (i n : ℕ) → slice_get numbers.items i ≡ Some n
        → n < length (gathering_of gathered.now).objects) }
    ensures refuses { IfErr result (IsUnreadIn (gathering_of gathered.now)) }
{
    let mut search = Search::of(alloc, gathered.offers.as_slice(), &[WANTED])?;
    let mut numbers = Vec::new(alloc);
    while let Some(number) = search.next() {
        let names = said_names(alloc, gathered.objects[number])?;
        search.put(number, &names)?;
        numbers.push(number)?;
    }
    Ok(numbers)
}

/// What an object says of names, by what its file says.
fn said_names<'a>(alloc: Global, object: TakenObject<'a>) -> Result<ObjectNames<'a>, InputFault<'a>>
    ensures names { IfOk result (λ names. (said : SaidObject) × ObjectOf object.entry.bytes.now said
        × (plain_names names ≡ names_said said)) }
    ensures good { OnOk result (first_fault object.entry.bytes.now ≡ None) }
    ensures refuses { IfErr result (IsUnread (object_of object.entry)) }
{
    match read(alloc, object.bytes) {
        Ok(said) => Ok(names_in(alloc, &said)?),
        Err(FileFault::OutOfMemory) => Err(InputFault::OutOfMemory),
        Err(fault) => Err(InputFault::Object(object, fault)),
    }
}
