//! The bytes of the regions.

ghost use Rattle.std.specs.Prelude.{◌+◌, ◌<◌, [], length, IfOk, IfErr, OnOk};
ghost use Rattle.rv_link_laws.specs.Names.{object_at};
ghost use Rattle.rv_link.specs.Filled.{IsInputOf, objects_of};
ghost use Rattle.rv_link.specs.Untaken.{AreUnfilled};
ghost use Rattle.rv_link.specs.Regions.{AreGrown, IsFixed, left_files, left_from};

use crate::fixed::{Fixed, PlacedInput};
use rv_fault::LinkFault;
use rv_object_types::{FileIndex, SectionIndex};
use rv_shorten::ShortSection;
use std::alloc::Global;

/// What the regions of a program hold so far.
#[derive(Drop)]
pub(crate) struct Regions {
    pub(crate) text: Vec<u8>,
    pub(crate) rodata: Vec<u8>,
    pub(crate) data: Vec<u8>,
}

impl Regions {
    /// The bytes of the regions of objects, section by section in their order.
    pub(crate) fn of(alloc: Global, fixed: &Fixed<'_, '_, '_, '_>) -> Result<Regions, LinkFault>
        requires { IsFixed fixed.now }
        ensures grown { IfOk result
            (AreGrown (objects_of fixed.now) (fixed.now).placement.now (λ goes. [])) }
        ensures refuses { IfErr result (AreUnfilled (objects_of fixed.now)
            (fixed.now).placement.now) }
    {
        let mut regions = Regions {
            text: Vec::new(alloc),
            rodata: Vec::new(alloc),
            data: Vec::new(alloc),
        };
        for file in 0..fixed.objects.len() {
            regions.put_object(alloc, fixed, FileIndex(file))?;
        }
        Ok(regions)
    }

    /// Adds the sections of an object.
    fn put_object(
        &mut self,
        alloc: Global,
        fixed: &Fixed<'_, '_, '_, '_>,
        file: FileIndex,
    ) -> Result<(), LinkFault>
        requires fixed { IsFixed fixed.now }
        requires file { file.0 < length (fixed.now).objects.now }
        requires grown { AreGrown (objects_of fixed.now) (fixed.now).placement.now
            (left_files (objects_of fixed.now) file.0) self.old }
        ensures grown { OnOk result (AreGrown (objects_of fixed.now) (fixed.now).placement.now
            (left_files (objects_of fixed.now) (file.0 + 1)) self.new) }
        ensures refuses { IfErr result (AreUnfilled (objects_of fixed.now)
            (fixed.now).placement.now) }
    {
        for index in 0..fixed.objects[file.0].sections.len() {
            self.put_section(alloc, fixed, file, SectionIndex(index))?;
        }
        Ok(())
    }

    /// Adds a section of an object.
    fn put_section(
        &mut self,
        alloc: Global,
        fixed: &Fixed<'_, '_, '_, '_>,
        file: FileIndex,
        index: SectionIndex,
    ) -> Result<(), LinkFault>
        requires fixed { IsFixed fixed.now }
        requires section { index.0
            < length (object_at (objects_of fixed.now) (file.0 + 1)).sections }
        requires grown { AreGrown (objects_of fixed.now) (fixed.now).placement.now
            (left_from (objects_of fixed.now) file.0 index.0) self.old }
        ensures grown { OnOk result (AreGrown (objects_of fixed.now) (fixed.now).placement.now
            (left_from (objects_of fixed.now) file.0 (index.0 + 1)) self.new) }
        ensures refuses { IfErr result (AreUnfilled (objects_of fixed.now)
            (fixed.now).placement.now) }
    {
        let input = fixed.input(file, index);
        self.put(alloc, fixed, &input)
    }

    /// Adds a section to the region to which it goes.
    fn put(
        &mut self,
        alloc: Global,
        fixed: &Fixed<'_, '_, '_, '_>,
        input: &PlacedInput<'_, '_, '_>,
    ) -> Result<(), LinkFault>
        requires fixed { IsFixed fixed.now }
        requires input { IsInputOf fixed.now input.now }
        requires grown { AreGrown (objects_of fixed.now) (fixed.now).placement.now
            (left_from (objects_of fixed.now) (input.now).file.0 (input.now).index.0) self.old }
        ensures grown { OnOk result (AreGrown (objects_of fixed.now) (fixed.now).placement.now
            (left_from (objects_of fixed.now) (input.now).file.0 ((input.now).index.0 + 1))
            self.new) }
        ensures refuses { IfErr result (AreUnfilled (objects_of fixed.now)
            (fixed.now).placement.now) }
    {
        let section = input.section;
        if !section.whole.loaded {
            return Ok(());
        }
        if section.whole.executable {
            fixed.put(alloc, input, fixed.placement.text.start, &mut self.text)?;
            return Ok(());
        }
        if section.is_nobits() {
            fixed.judge(input)?;
            return Ok(());
        }
        if section.whole.writable {
            fixed.put(alloc, input, fixed.placement.data.start, &mut self.data)?;
            return Ok(());
        }
        fixed.put(alloc, input, fixed.placement.rodata.start, &mut self.rodata)?;
        Ok(())
    }
}
