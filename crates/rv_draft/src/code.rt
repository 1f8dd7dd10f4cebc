//! The code of a source's sections: its instructions as they lie in memory, one after another.
//!
//! The code of a statement is made for the sizes of statements, here for the bytes, and for open fields that its words do
//! not tell. To keep it would take memory for each statement. It is the same each time: `HasCode` has one length for a
//! statement, by its values and by the length that it is asked to have. Most statements are one instruction with nothing
//! open, so this pass asks for that first and needs no list for them.

ghost use Rattle.std.specs.Prelude.{◌≡◌, ◌<◌, ◌≤◌, ℕ, ◌+◌, ◌++◌, Bool, true, List, [], length, is_some, IfOk, OnOk};
ghost use Rattle.rv_isa_laws.specs.Bytes.{little_endian};
ghost use Rattle.rv_expression_laws.specs.Values as values;
ghost use Rattle.rv_statement_laws.specs.Statement.{Expression};
ghost use Rattle.rv_statement.specs.View.{statement_of};
ghost use Rattle.rv_unit_laws.specs.Tables.{Tables, at_start, tables};
ghost use Rattle.rv_unit.specs.Unit.{said, IsFilled, IsScope};
ghost use Rattle.rv_source_laws.specs.Located.{Located, located_from};
ghost use Rattle.rv_assemble_laws.specs.Refusals.{else_fault};
ghost use Rattle.rv_source_laws.specs.Sizes.{AreLeast};
ghost use Rattle.rv_draft.specs.Added.{Adds, IsAllCode, IsCodeSoFar, IsSourceCode};
ghost use Rattle.rv_draft.specs.Code as laws;
ghost use Rattle.rv_draft.specs.Lengths.{code_lengths};
ghost use Rattle.rv_draft.specs.Contents as sizes;
ghost use Rattle.rv_draft.specs.Measure.{AreSizes};
ghost use Rattle.rv_draft.specs.Sized.{bytes_of_sizes};
ghost use Rattle.rv_instruction.specs.Code.{alone_coded, encoded_bytes, encoded_instructions, instructions_of, near_forms_of, HasCode, MayHave};
ghost use Rattle.rv_draft.specs.Code.{GrowsBy, full_fault, full_at};
ghost use Rattle.rv_instruction.specs.Scoped.{values_at, faults_at};

use crate::beside::statement_padding;
use crate::compressed::{is_code, is_instruction};
use crate::extents::extent_at;
use crate::item::CodeSize;
use crate::layout::Layout;
use crate::widths::{bytes_of, width};
use rv_expression::{SourceCode, SourceFault};
use rv_instruction::{Coded, Encoded, code as code_of, one_code};
use rv_object_types::put_no_operations;
use rv_statement::Statement;
use rv_unit::{LONGEST_SECTION, Scope, SectionOffset, Unit};
use std::alloc::{AllocError, Global};

/// Adds a part of a statement's code as it lies in memory.
fn put(bytes: &mut Vec<u8>, encoded: Encoded) -> Result<(), AllocError>
    ensures { OnOk result (bytes.new.items ≡ bytes.old.items ++ encoded_bytes encoded) }
{
    match encoded {
        Encoded::Parcel(parcel) => bytes.extend_from_slice(parcel.to_le_bytes().as_slice()),
        Encoded::Word(word) => bytes.extend_from_slice(word.to_le_bytes().as_slice()),
        Encoded::Pair(first, second) => put_pair(bytes, first, second),
    }
}

/// Adds two words.
#[tactic(auto, using(crate::proofs::JoinedLemmas::put_twice))]
fn put_pair(bytes: &mut Vec<u8>, first: u32, second: u32) -> Result<(), AllocError>
    ensures { OnOk result (bytes.new.items
        ≡ bytes.old.items ++ (little_endian 4 first ++ little_endian 4 second)) }
{
    bytes.extend_from_slice(first.to_le_bytes().as_slice())?;
    bytes.extend_from_slice(second.to_le_bytes().as_slice())?;
    Ok(())
}

/// Adds the parts of a statement's code.
fn put_all(bytes: &mut Vec<u8>, code: &[Coded]) -> Result<(), AllocError>
    ensures { OnOk result (bytes.new.items ≡ bytes.old.items ++ sizes.bytes_coded code.now) }
{
    for coded in code {
        put(bytes, coded.encoded)?;
    }
    Ok(())
}

/// Adds the code of a statement: its padding, or its parts.
#[tactic(auto, using(crate::proofs::JoinedLemmas::put_twice))]
fn put_statement(bytes: &mut Vec<u8>, padding: u32, code: &[Coded]) -> Result<(), AllocError>
    ensures { OnOk result
        (bytes.new.items ≡ bytes.old.items ++ laws.code_bytes padding code.now) }
{
    put_no_operations(bytes, padding)?;
    put_all(bytes, code)?;
    Ok(())
}

/// Adds the code of a statement to that of a section.
fn put_section(
    sections: &mut [Vec<u8>],
    section: u32,
    padding: u32,
    code: &[Coded],
) -> Result<(), AllocError>
    requires { section < length sections.old }
    ensures { OnOk result
        (GrowsBy sections.old sections.new section (laws.code_bytes padding code.now)) }
{
    put_statement(&mut sections[section as usize], padding, code)
}

/// Adds the code of a statement that is one instruction: its part, after its padding if it has any.
#[tactic(auto, using(crate::proofs::JoinedLemmas::alone_bytes))]
fn put_one(bytes: &mut Vec<u8>, padding: u32, encoded: Encoded) -> Result<(), AllocError>
    ensures { OnOk result (bytes.new.items
        ≡ bytes.old.items ++ laws.code_bytes padding (alone_coded encoded).items) }
{
    if padding == 0 {
        return put(bytes, encoded);
    }
    let found = [Coded {
        encoded,
        kind: None,
    }];
    put_statement(bytes, padding, &found)
}

/// Adds the code of a statement that is one instruction to that of a section.
fn put_one_in(
    sections: &mut [Vec<u8>],
    section: u32,
    padding: u32,
    encoded: Encoded,
) -> Result<(), AllocError>
    requires { section < length sections.old }
    ensures { OnOk result (GrowsBy sections.old sections.new section
        (laws.code_bytes padding (alone_coded encoded).items)) }
{
    put_one(&mut sections[section as usize], padding, encoded)
}

/// How many instructions a part is.
fn count(encoded: Encoded) -> u8
    ensures count { result ≡ encoded_instructions encoded }
    ensures low { result ≤ 2 }
{
    match encoded {
        Encoded::Parcel(_) => 1,
        Encoded::Word(_) => 1,
        Encoded::Pair(..) => 2,
    }
}

/// How many instructions the parts of a statement are.
fn instructions_in(code: &[Coded]) -> u8
    requires { length code.now ≤ 8 }
    ensures { result ≡ instructions_of code.now }
{
    let mut instructions = 0;
    for coded in code {
        instructions += count(coded.encoded);
    }
    instructions
}

/// How large the code of a statement is.
fn code_size(padding: u32, code: &[Coded]) -> CodeSize
    requires low { padding ≤ 65535 }
    requires few { length code.now ≤ 8 }
    ensures { result ≡ laws.code_size padding code.now }
{
    CodeSize {
        padding: padding as u16,
        bytes: bytes_of(code),
        instructions: instructions_in(code),
    }
}

/// How large the code of a statement is that is one instruction.
#[tactic(auto, using(crate::proofs::JoinedLemmas::alone_size))]
fn size_of_one(padding: u32, encoded: Encoded) -> CodeSize
    requires { padding ≤ 65535 }
    ensures { result ≡ laws.code_size padding (alone_coded encoded).items }
{
    CodeSize {
        padding: padding as u16,
        bytes: width(encoded),
        instructions: count(encoded),
    }
}

// ---- the lengths of branches

/// A length that a branch, a jump or a call is asked to have: theirs are below 256.
pub(crate) fn asked(length: u32) -> u8
    ensures { length ≤ 255 → result ≡ length }
{
    length.min(255) as u8
}

/// `count` sections without code.
#[tactic(auto, using(crate::proofs::SoFarLemmas::empty_behind))]
pub(crate) fn empty_sections(alloc: Global, count: usize) -> Result<Vec<Vec<u8>>, AllocError>
    ensures count { IfOk result (λ sections. length sections.items ≡ count) }
    ensures empty { IfOk result (λ sections. (j : ℕ) → laws.bytes_in sections.items j ≡ []) }
{
    let mut sections = Vec::new(alloc);
    for _ in 0..count {
        sections.push(Vec::new(alloc))?;
    }
    Ok(sections)
}

/// How many bytes a section has.
fn bytes_in(sections: &[Vec<u8>], section: u32) -> usize
    requires { section < length sections.now }
    ensures { result ≡ length (laws.bytes_in sections.now section) }
{
    sections[section as usize].len()
}

/// The line of the first statement after which a section is too long; this one's has `bytes`.
fn full_behind(full: Option<u32>, bytes: usize, line: u32) -> Option<u32>
    ensures { full_fault result ≡ else_fault (full_fault full) (full_at line bytes) }
{
    match full {
        Some(first) => Some(first),
        None if bytes as u64 > LONGEST_SECTION => Some(line),
        None => None,
    }
}

/// The code of a source.
#[derive(Drop)]
pub(crate) struct SectionCode {
    /// The bytes of each section.
    pub(crate) sections: Vec<Vec<u8>>,
    /// The size of each statement's code.
    pub(crate) sizes: Vec<CodeSize>,
}

/// The code so far of a source's statements.
#[derive(Drop)]
pub(crate) struct Coder {
    /// The bytes of each section.
    pub(crate) sections: Vec<Vec<u8>>,
    /// The size of each statement's code.
    pub(crate) sizes: Vec<CodeSize>,
    /// The line of the first statement after which its section is too long.
    pub(crate) full: Option<u32>,
}

impl Coder {
    /// The code of `sections` sections before the first statement, with room for the sizes of `statements`.
    #[tactic(auto, using(crate::proofs::SoFarLemmas::begun))]
    pub(crate) fn new(alloc: Global, sections: usize, statements: usize) -> Result<Self, AllocError>
        ensures count { IfOk result (λ c. length c.sections.items ≡ sections) }
        ensures begun { IfOk result (λ c. (t : Tables) (all : List Located)
            → IsCodeSoFar t all all c) }
        ensures none { IfOk result (λ c. c.sizes.items ≡ []) }
    {
        Ok(Coder {
            sections: empty_sections(alloc, sections)?,
            sizes: Vec::with_capacity(alloc, statements)?,
            full: None,
        })
    }

    /// The code of all statements after the last, where no section is too long.
    pub(crate) fn finish(self) -> Result<SectionCode, SourceFault>
        ensures count { IfOk result
            (λ c. length c.sections.items ≡ length self.sections.items) }
        ensures code { (t : Tables) (all : List Located) → IsCodeSoFar t all [] self
            → IsAllCode t all (bytes_of_sizes self.sizes.items) result }
    {
        match self.full {
            Some(line) => Err(SourceFault::At {
                code: SourceCode::Limit,
                line,
            }),
            None => Ok(SectionCode {
                sections: self.sections,
                sizes: self.sizes,
            }),
        }
    }

    /// Adds a unit's next statement, which stands at the place, in a section of code (`executable`)
    /// or not, where compressed code is on or off, and which has this length if it is a branch or a
    /// jump that may be near; or gives the lowest code of its faults.
    pub(crate) fn add<'a>(
        &mut self,
        statement: &Statement<'a>,
        scope: &Scope<'_, 'a>,
        place: SectionOffset,
        executable: bool,
        compressed: bool,
        wanted: u32,
    ) -> Result<(), SourceFault>
        requires asked { MayHave compressed (statement_of statement.now).kind wanted }
        requires section { place.section < length self.old.sections.items }
        ensures { (index : ℕ) → IsFilled (scope.now).unit.now → IsScope scope.now index
            → Adds self.old self.new place.section executable
            (faults_at scope.now index place (statement_of statement.now).kind)
            (values_at scope.now index place) compressed wanted (statement_of statement.now)
            result }
    {
        if !is_code(executable, &statement.kind) {
            return self.add_none(statement, place.section);
        }
        let padding = statement_padding(statement, scope, place, executable);
        if !is_instruction(&statement.kind) {
            return self.add_found(statement, place.section, padding, &[]);
        }
        match one_code(statement, scope, place, compressed) {
            Some(encoded) => self.add_one(statement, place.section, padding, encoded),
            None => self.add_code(statement, scope, place, padding, compressed, wanted),
        }
    }

    /// Adds a statement that is no code.
    fn add_none(&mut self, statement: &Statement<'_>, section: u32) -> Result<(), SourceFault>
        requires { section < length self.old.sections.items }
        ensures { (executable : Bool) (faults : List ℕ) (v : Expression → values.Value)
            (rvc : Bool) (wanted : ℕ) → faults ≡ []
            → sizes.statement_padding executable v (statement_of statement.now).kind ≡ 0
            → HasCode v rvc wanted (statement_of statement.now).kind []
            → Adds self.old self.new section executable faults v rvc wanted
            (statement_of statement.now) result }
    {
        self.sizes.push(CodeSize {
            padding: 0,
            bytes: 0,
            instructions: 0,
        })?;
        let bytes = bytes_in(self.sections.as_slice(), section);
        self.full = full_behind(self.full, bytes, statement.line);
        Ok(())
    }

    /// Adds a statement that has this padding, by the list of its instructions.
    fn add_code<'a>(
        &mut self,
        statement: &Statement<'a>,
        scope: &Scope<'_, 'a>,
        place: SectionOffset,
        padding: u32,
        compressed: bool,
        wanted: u32,
    ) -> Result<(), SourceFault>
        requires asked { MayHave compressed (statement_of statement.now).kind wanted }
        requires low { padding ≤ 65535 }
        requires section { place.section < length self.old.sections.items }
        ensures { (index : ℕ) → IsFilled (scope.now).unit.now → IsScope scope.now index
            → (executable : Bool) → padding ≡ sizes.statement_padding executable
            (values_at scope.now index place) (statement_of statement.now).kind
            → Adds self.old self.new place.section executable
            (faults_at scope.now index place (statement_of statement.now).kind)
            (values_at scope.now index place) compressed wanted (statement_of statement.now)
            result }
    {
        match code_of(statement, scope, place, compressed, asked(wanted)) {
            Ok(found) => self.add_found(statement, place.section, padding, found.as_slice()),
            Err(fault) => Err(fault),
        }
    }

    /// Adds a statement that has this padding, and is one instruction.
    fn add_one(
        &mut self,
        statement: &Statement<'_>,
        section: u32,
        padding: u32,
        encoded: Encoded,
    ) -> Result<(), SourceFault>
        requires low { padding ≤ 65535 }
        requires section { section < length self.old.sections.items }
        ensures { (executable : Bool) (faults : List ℕ) (v : Expression → values.Value)
            (rvc : Bool) (bytes wanted : ℕ) → faults ≡ []
            → padding ≡ sizes.statement_padding executable v (statement_of statement.now).kind
            → HasCode v rvc bytes (statement_of statement.now).kind (alone_coded encoded).items
            → (is_some (near_forms_of rvc (statement_of statement.now).kind) ≡ true
            → bytes ≡ wanted)
            → Adds self.old self.new section executable faults v rvc wanted
            (statement_of statement.now) result }
    {
        put_one_in(self.sections.as_mut_slice(), section, padding, encoded)?;
        self.sizes.push(size_of_one(padding, encoded))?;
        let bytes = bytes_in(self.sections.as_slice(), section);
        self.full = full_behind(self.full, bytes, statement.line);
        Ok(())
    }

    /// Adds a statement that has this padding and these instructions.
    fn add_found(
        &mut self,
        statement: &Statement<'_>,
        section: u32,
        padding: u32,
        found: &[Coded],
    ) -> Result<(), SourceFault>
        requires low { padding ≤ 65535 }
        requires few { length found.now ≤ 8 }
        requires section { section < length self.old.sections.items }
        ensures { (executable : Bool) (faults : List ℕ) (v : Expression → values.Value)
            (rvc : Bool) (bytes wanted : ℕ) → faults ≡ []
            → padding ≡ sizes.statement_padding executable v (statement_of statement.now).kind
            → HasCode v rvc bytes (statement_of statement.now).kind found.now
            → (is_some (near_forms_of rvc (statement_of statement.now).kind) ≡ true
            → bytes ≡ wanted)
            → Adds self.old self.new section executable faults v rvc wanted
            (statement_of statement.now) result }
    {
        put_section(self.sections.as_mut_slice(), section, padding, found)?;
        self.sizes.push(code_size(padding, found))?;
        let bytes = bytes_in(self.sections.as_slice(), section);
        self.full = full_behind(self.full, bytes, statement.line);
        Ok(())
    }
}

/// The code of each section of a unit, and how much of it each statement has, by the sizes of the statements, which are
/// read into the room.
pub(crate) fn code<'a>(
    alloc: Global,
    unit: &Unit<'a>,
    layout: &Layout,
    room: &mut Statement<'a>,
) -> Result<SectionCode, SourceFault>
    requires count { length (layout.now).sizes.items ≡ length (said unit.now) }
    requires sizes { AreSizes (tables (said unit.now))
        (located_from 1 1 (at_start (said unit.now)) (said unit.now)) (layout.now).sizes.items }
    requires least { AreLeast (tables (said unit.now))
        (located_from 1 1 (at_start (said unit.now)) (said unit.now))
        (code_lengths (tables (said unit.now))
        (located_from 1 1 (at_start (said unit.now)) (said unit.now)) (layout.now).sizes.items) }
    ensures count { IfOk result
        (λ c. length c.sections.items ≡ length (unit.now).tables.extents.items) }
    ensures code { IsSourceCode (said unit.now)
        (code_lengths (tables (said unit.now))
        (located_from 1 1 (at_start (said unit.now)) (said unit.now)) (layout.now).sizes.items)
        result }
{
    let statements = unit.statements();
    let mut coder = Coder::new(alloc, unit.sections().len(), statements.len())?;
    let mut scope = Scope::new(unit);
    let places = unit.places();
    let extents = unit.sections();
    for index in 0..statements.len() {
        let place = places[index];
        let extent = extent_at(extents, place.section);
        let compressed = unit.options_at(index).rvc();
        let executable = extent.section.executable;
        let wanted = layout.size(index);
        coder.add(
            statements.read(index, room),
            &scope,
            place,
            executable,
            compressed,
            wanted,
        )?;
        scope.pass();
    }
    coder.finish()
}
