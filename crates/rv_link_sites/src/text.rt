//! The text of objects, as what calls lead to.

ghost use Rattle.std.specs.Prelude.{◌≡◌, ◌+◌, ◌*◌, ◌≤◌, ◌^◌, Some, map, option_map, option_and_then, true, IfOk};
ghost use Rattle.std.specs.List.{slice_get};
ghost use Rattle.rv_object_laws.specs.Object.{Object as SaidObject, Section, size_of};
ghost use Rattle.rv_object_types.specs.Parts.{relocation_of};
ghost use Rattle.rv_object_types.specs.Places.{place_of};
ghost use Rattle.rv_object_types.specs.View.{object_of};
ghost use Rattle.rv_link_laws.specs.Inputs.{InputSection};
ghost use Rattle.rv_link_laws.specs.CallSites.{base, target_place};
ghost use Rattle.rv_link_laws.specs.Names as laws;
ghost use Rattle.rv_link_laws.specs.Layout.{object_section};
ghost use Rattle.rv_names.specs.Names.{IsNames};
ghost use Rattle.rv_link_sites.specs.Text.{IsLaidText, objects_of, text_target};

use crate::line::Line;
use rv_names::Names;
use rv_object_types::{FileIndex, Object, Place, Relocation, SectionIndex, SymbolIndex};
use std::alloc::{AllocError, Global};

/// The text of objects in one line.
#[derive(Drop)]
pub(crate) struct Text<'t, 'a, 'n, 'o> {
    pub(crate) objects: &'t [Object<'a>],
    pub(crate) names: &'n Names<'o>,
    pub(crate) line: Line,
}

/// Where the target of a call stands in the line: it moves as that offset does.
#[derive(Clone, Copy, Drop)]
pub(crate) struct Target {
    /// Its offset, or that of its section's end if it is past that.
    pub(crate) offset: u128,
    /// The bytes from its section's end to it.
    pub(crate) past_end: u64,
}

/// Whether a section of a file goes to text.
fn is_in_text(objects: &[Object<'_>], file: FileIndex, section: SectionIndex) -> bool
    ensures { result
        ≡ laws.is_in_text (object_section (map object_of objects.now) file.0 section.0) }
{
    match objects.get(file.0) {
        Some(object) => match object.sections.get(section.0) {
            Some(section) => section.is_text(),
            None => false,
        },
        None => false,
    }
}

impl<'t, 'a, 'n, 'o> Text<'t, 'a, 'n, 'o> {
    /// That of objects, whose names mean this.
    pub(crate) fn of(
        alloc: Global,
        objects: &'t [Object<'a>],
        names: &'n Names<'o>,
    ) -> Result<Text<'t, 'a, 'n, 'o>, AllocError>
        requires { IsNames (map object_of objects.now) names.now }
        ensures laid { IfOk result IsLaidText }
        ensures same { IfOk result (λ text. objects_of text ≡ map object_of objects.now) }
    {
        let line = Line::of(alloc, objects)?;
        Ok(Text {
            objects,
            names,
            line,
        })
    }

    /// Where the symbol of a relocation of a file stands, if that is in text.
    pub(crate) fn target(&self, file: FileIndex, relocation: &Relocation) -> Option<Target>
        requires { IsLaidText self.now }
        ensures { (i : InputSection) → i.file ≡ file.0 + 1
            → slice_get (objects_of self.now) file.0 ≡ Some i.object → result
            ≡ text_target (objects_of self.now)
            (target_place (objects_of self.now) i (relocation_of relocation.now)) }
    {
        let index = relocation.symbol?;
        let place = self.place(file, SymbolIndex(index as usize))?;
        self.offset(place)
    }

    /// Where the symbol at an index of a file stands.
    fn place(&self, file: FileIndex, index: SymbolIndex) -> Option<Place>
        requires { IsLaidText self.now }
        ensures { (o : SaidObject) → slice_get (objects_of self.now) file.0 ≡ Some o
            → option_map place_of result
            ≡ option_and_then (laws.symbol_place (objects_of self.now) (file.0 + 1))
            (slice_get o.symbols index.0) }
    {
        let object = self.objects.get(file.0)?;
        let symbol = object.symbols.get(index.0)?;
        self.names.place_of(self.objects, file, index, symbol.binding, symbol.definition)
    }

    /// Where a place is in the line, if it is in text.
    fn offset(&self, place: Place) -> Option<Target>
        requires { IsLaidText self.now }
        ensures { result ≡ text_target (objects_of self.now) (Some (place_of place)) }
    {
        if !is_in_text(self.objects, place.file, place.section) {
            return None;
        }
        let (start, end) = self.stand(place.file, place.section);
        let offset = start + u128::from(place.offset);
        Some(Target {
            offset: offset.min(end),
            past_end: offset.saturating_sub(end) as u64,
        })
    }

    /// Where the first byte of a section of text stands, and its end.
    fn stand(&self, file: FileIndex, section: SectionIndex) -> (u128, u128)
        requires laid { IsLaidText self.now }
        requires text { laws.is_in_text (object_section (objects_of self.now) file.0 section.0)
            ≡ true }
        ensures start { result.0 ≡ base (objects_of self.now) (file.0 + 1) section.0 }
        ensures end { (s : Section) → object_section (objects_of self.now) file.0 section.0 ≡ Some s
            → result.1 ≡ result.0 + size_of s.contents }
        ensures order { result.0 ≤ result.1 }
        ensures low { result.1 ≤ 9 * 2 ^ 123 }
    {
        let entry = self.line.files[file.0];
        let place = entry + 2 * section.0;
        let start = self.line.places[place];
        let end = self.line.places[place + 1];
        (start, end)
    }
}
