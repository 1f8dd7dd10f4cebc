//! What the files of a link offer.

ghost use Rattle.std.specs.Prelude.{◌≡◌, ◌+◌, ◌<◌, ◌^◌, ℕ, Ok, Some, map, IfOk, IfErr, OnOk, ◌++◌};
ghost use Rattle.std.specs.List.{slice_get};
ghost use Rattle.rv_archive_laws.specs.Reads.{Reads};
ghost use Rattle.rv_archive_laws.specs.Index as laws;
ghost use Rattle.rv_archive.specs.View.{plain_archive, plain_entry, plain_member};
ghost use Rattle.rv_inputs.specs.Plain.{plain_offer};
ghost use Rattle.rv_inputs.specs.Gathered.{no_files, next_group, member_object, entry_offer, with_object, Adds, AddsFile, Gathers};
ghost use Rattle.rv_inputs.specs.Taken.{IsNoArchive, IsNotAdded, IsInputRefused};
ghost use Rattle.rv_inputs.specs.Views.{gathering_of, object_of};

use crate::fault::InputFault;
use crate::input::{Form, Input};
use crate::offer::Offer;
use crate::taken::TakenObject;
use rv_archive::{Archive, Entry, Member, ReadFault};
use std::alloc::{AllocError, Global};

/// What some files offer.
#[derive(Drop)]
pub(crate) struct Gathered<'a> {
    /// The objects, in the order of their numbers.
    pub(crate) objects: Vec<TakenObject<'a>>,
    /// The offers, in the order of the files.
    pub(crate) offers: Vec<Offer<'a>>,
    /// How many files these are.
    files: usize,
    /// The group of the last one, which has the number of its first file.
    group: usize,
}

/// What files offer.
pub(crate) fn gather<'a>(
    alloc: Global,
    inputs: &[Input<'a>],
) -> Result<Gathered<'a>, InputFault<'a>>
    ensures gathers { IfOk result (λ gathered. Gathers inputs.now no_files (gathering_of gathered)) }
    ensures refuses { IfErr result (IsInputRefused inputs.now) }
{
    let mut gathered = Gathered::new(alloc);
    for i in 0..inputs.len() {
        gathered.add(alloc, &inputs[i])?;
    }
    Ok(gathered)
}

impl<'a> Gathered<'a> {
    /// No file offers anything.
    fn new(alloc: Global) -> Self
        ensures { gathering_of result ≡ no_files }
    {
        Gathered {
            objects: Vec::new(alloc),
            offers: Vec::new(alloc),
            files: 0,
            group: 0,
        }
    }

    /// Adds what one file more offers.
    fn add(&mut self, alloc: Global, input: &Input<'a>) -> Result<(), InputFault<'a>>
        requires { self.old.files + 1 < 2 ^ 64 }
        ensures added { OnOk result
            (AddsFile input.now (gathering_of self.old) (gathering_of self.new)) }
        ensures refuses { IfErr result (IsNotAdded self.old.files input.now.bytes.now) }
    {
        let group = self.next_group(input.joins);
        match input.form {
            Form::Object => self.add_object(input.bytes, group),
            Form::Archive => self.add_archive(alloc, input.bytes, group),
        }
    }

    /// The group of the next file.
    fn next_group(&self, joins: bool) -> usize
        requires { self.now.files + 1 < 2 ^ 64 }
        ensures { result ≡ next_group joins (gathering_of self.now) }
    {
        if joins { self.group } else { self.files + 1 }
    }

    /// Adds an object.
    fn add_object(&mut self, bytes: &'a [u8], group: usize) -> Result<(), InputFault<'a>>
        requires { self.old.files + 1 < 2 ^ 64 }
        ensures added { OnOk result
            (gathering_of self.new ≡ with_object bytes.now group (gathering_of self.old)) }
        ensures refuses { IfErr result (IsNotAdded self.old.files bytes.now) }
    {
        let file = self.files + 1;
        self.offers.push(Offer {
            name: None,
            object: self.objects.len(),
            file,
            group,
        })?;
        self.objects.push(TakenObject {
            file,
            member: None,
            bytes,
        })?;
        self.files = file;
        self.group = group;
        Ok(())
    }

    /// Adds the members of an archive.
    fn add_archive(
        &mut self,
        alloc: Global,
        bytes: &'a [u8],
        group: usize,
    ) -> Result<(), InputFault<'a>>
        requires { self.old.files + 1 < 2 ^ 64 }
        ensures added { OnOk result (Adds Form.Archive bytes.now group
            (gathering_of self.old) (gathering_of self.new)) }
        ensures refuses { IfErr result (IsNotAdded self.old.files bytes.now) }
    {
        let file = self.files + 1;
        let archive = read_archive(alloc, file, bytes)?;
        let first = self.objects.len();
        put_members(&mut self.objects, file, archive.members.as_slice())?;
        put_index(
            &mut self.offers,
            (first, file, group),
            archive.index.as_slice(),
        )?;
        self.files = file;
        self.group = group;
        Ok(())
    }
}

/// The archive that a file of this number is.
fn read_archive<'a>(
    alloc: Global,
    file: usize,
    bytes: &'a [u8],
) -> Result<Archive<'a>, InputFault<'a>>
    ensures reads { IfOk result (λ archive. Reads bytes.now (Ok (plain_archive archive))) }
    ensures refuses { IfErr result (IsNoArchive file bytes.now) }
{
    match Archive::read(alloc, bytes) {
        Ok(archive) => Ok(archive),
        Err(ReadFault::Refused(fault)) => Err(InputFault::Archive(file, fault)),
        Err(ReadFault::OutOfMemory) => Err(InputFault::OutOfMemory),
    }
}

/// Adds the members of an archive to objects.
fn put_members<'a>(
    objects: &mut Vec<TakenObject<'a>>,
    file: usize,
    members: &[Member<'a>],
) -> Result<(), AllocError>
    ensures { OnOk result (map object_of objects.new.items
        ≡ map object_of objects.old.items ++ map (member_object file) (map plain_member members.now)) }
{
    for i in 0..members.len() {
        let member = members[i];
        objects.push(TakenObject {
            file,
            member: Some(member.name),
            bytes: member.bytes,
        })?;
    }
    Ok(())
}

/// Adds what an index offers: `place` has the number of the first member, the file's, and its group's.
fn put_index<'a>(
    offers: &mut Vec<Offer<'a>>,
    place: (usize, usize, usize),
    index: &[Entry<'a>],
) -> Result<(), AllocError>
    requires { (i : ℕ) (e : laws.Entry) → slice_get (map plain_entry index.now) i ≡ Some e
        → place.0 + e.member < 2 ^ 64 }
    ensures { OnOk result (map plain_offer offers.new.items
        ≡ map plain_offer offers.old.items
        ++ map (entry_offer place.0 place.1 place.2) (map plain_entry index.now)) }
{
    for i in 0..index.len() {
        offers.push(entry_offer(place, index[i]))?;
    }
    Ok(())
}

/// What an entry of an index offers.
fn entry_offer<'a>(place: (usize, usize, usize), entry: Entry<'a>) -> Offer<'a>
    requires { place.0 + entry.member < 2 ^ 64 }
    ensures { plain_offer result
        ≡ entry_offer place.0 place.1 place.2 (plain_entry entry.entry) }
{
    let (first, file, group) = place;
    Offer {
        name: Some(entry.name),
        object: first + entry.member,
        file,
        group,
    }
}
