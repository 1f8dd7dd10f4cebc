//! The state machine of line tables (DWARF 5, 6.2.5).
//!
//! What a step gives is what the standard says. None is given for a number that 64 bits do not hold.

ghost use Rattle.std.specs.Prelude.{◌≡◌, ◌+◌, ◌-◌, ◌/◌, ◌≤◌, ◌<◌, ◌∷◌, pos, ◌+ℤ◌, not, take, Some, IfSome, length};
ghost use Rattle.std.specs.Int.{w16, w64, from_le_bytes};
ghost use Rattle.rv_debug_laws.specs.LineProgram as program;
ghost use Rattle.rv_debug_laws.specs.Leb128.{unsigned_at, signed_at};
ghost use Rattle.rv_debug_reader.specs.Machine as laws;
ghost use Rattle.rv_debug_reader.specs.Views.{opcodes_of, registers_of, step_of};

use crate::leb128::{signed_in, unsigned_in};
use crate::state::{Entry, Header, Registers, Step};

impl Header {
    /// The registers at the start of each sequence.
    #[tactic(auto, unfolding(rv_debug_laws::specs::LineProgram::start))]
    pub(crate) fn start(self) -> Registers
        ensures { registers_of result ≡ program.start (opcodes_of self) }
    {
        Registers {
            address: 0,
            file: 1,
            line: 1,
            is_stmt: self.default_is_stmt,
        }
    }
}

impl Registers {
    /// At another address: so many operations on.
    fn advanced(self, header: Header, operations: u64) -> Option<Registers>
        ensures { IfSome result (λ after. registers_of after
            ≡ program.advanced (opcodes_of header) operations (registers_of self)) }
    {
        let bytes = u64::from(header.minimum_instruction_length).checked_mul(operations)?;
        let address = self.address.checked_add(bytes)?;
        Some(Registers { address, ..self })
    }

    /// At another line: so many lines on.
    fn moved(self, lines: i64) -> Option<Registers>
        ensures { IfSome result (λ after. registers_of after
            ≡ program.moved lines (registers_of self)) }
    {
        let line = self.line.checked_add_signed(lines)?;
        Some(Registers { line, ..self })
    }
}

/// A step that only changes the registers.
fn changes(registers: Registers, taken: usize) -> Step
    ensures step { program.changes (registers_of registers) taken ≡ Some (step_of result) }
    ensures taken { result.taken ≡ taken }
{
    Step {
        registers,
        entry: None,
        taken,
    }
}

/// A step that appends the registers as a row.
fn appends(registers: Registers) -> Step
    ensures step { program.appends (registers_of registers) ≡ Some (step_of result) }
    ensures taken { result.taken ≡ 0 }
{
    Step {
        registers,
        entry: Some(Entry::Row(registers)),
        taken: 0,
    }
}

/// What an instruction does by its opcode and the bytes after that; none where it has no meaning here.
#[tactic(auto, unfolding(crate::specs::Machine::instruction))]
pub(crate) fn instruction(
    header: Header,
    registers: Registers,
    opcode: u8,
    bytes: &[u8],
) -> Option<Step>
    ensures step { IfSome result (λ step.
        laws.instruction (opcodes_of header) (registers_of registers) opcode bytes.now
        ≡ Some (step_of step)) }
    ensures inside { IfSome result (λ step. step.taken ≤ length bytes.now) }
{
    if header.opcode_base <= opcode {
        return special(header, opcode - header.opcode_base, registers);
    }
    standard(header, registers, opcode, bytes)
}

/// What a standard opcode does.
#[tactic(auto, unfolding(crate::specs::Machine::instruction, rv_debug_laws::specs::LineProgram::instruction))]
fn standard(header: Header, registers: Registers, opcode: u8, bytes: &[u8]) -> Option<Step>
    requires { opcode < header.opcode_base }
    ensures step { IfSome result (λ step.
        laws.instruction (opcodes_of header) (registers_of registers) opcode bytes.now
        ≡ Some (step_of step)) }
    ensures inside { IfSome result (λ step. step.taken ≤ length bytes.now) }
{
    match opcode {
        0 => extended(header, registers, bytes),
        1 => Some(appends(registers)),
        2 => advance_pc(header, registers, bytes),
        3 => advance_line(registers, bytes),
        4 => set_file(registers, bytes),
        5 => skip_operand(registers, bytes),
        6 => Some(negate_stmt(registers)),
        7 => Some(changes(registers, 0)),
        8 => const_add_pc(header, registers),
        9 => fixed_advance_pc(registers, bytes),
        10 => Some(changes(registers, 0)),
        11 => Some(changes(registers, 0)),
        12 => skip_operand(registers, bytes),
        _ => None,
    }
}

/// A special opcode, less the first: both an address and a line, and a row.
#[tactic(auto, unfolding(rv_debug_laws::specs::LineProgram::special))]
fn special(header: Header, adjusted: u8, registers: Registers) -> Option<Step>
    ensures step { IfSome result (λ step.
        program.special (opcodes_of header) adjusted (registers_of registers) ≡ Some (step_of step)) }
    ensures inside { IfSome result (λ step. step.taken ≡ 0) }
{
    let operations = u64::from(adjusted / header.line_range);
    let lines = i64::from(header.line_base) + i64::from(adjusted % header.line_range);
    let at = registers.advanced(header, operations)?;
    let after = at.moved(lines)?;
    Some(appends(after))
}

/// An extended instruction, behind its length.
#[tactic(auto, unfolding(crate::specs::Machine::extended_at))]
fn extended(header: Header, registers: Registers, bytes: &[u8]) -> Option<Step>
    ensures step { IfSome result (λ step.
        laws.extended_at (opcodes_of header) bytes.now (registers_of registers) ≡ Some (step_of step)) }
    ensures inside { IfSome result (λ step. step.taken ≤ length bytes.now) }
{
    let (size, before) = unsigned_in(bytes)?;
    let behind = bytes.get(before..)?;
    let whole = behind.get(..size as usize)?;
    extended_by(header, registers, whole, before + size as usize)
}

/// An extended instruction by its opcode and operand, which were read in so many bytes.
#[tactic(auto, unfolding(crate::specs::Machine::extended_by, rv_debug_laws::specs::LineProgram::extended_instruction))]
fn extended_by(header: Header, registers: Registers, whole: &[u8], taken: usize) -> Option<Step>
    ensures step { IfSome result (λ step.
        laws.extended_by (opcodes_of header) whole.now taken (registers_of registers)
        ≡ Some (step_of step)) }
    ensures inside { IfSome result (λ step. step.taken ≡ taken) }
{
    let (opcode, operand) = whole.split_first()?;
    if *opcode == 1 {
        return end_sequence(header, registers, operand, taken);
    }
    if *opcode == 2 {
        return set_address(registers, operand, taken);
    }
    Some(changes(registers, taken))
}

/// The end of a sequence, behind which the registers begin anew.
fn end_sequence(header: Header, registers: Registers, operand: &[u8], taken: usize) -> Option<Step>
    ensures bare { IfSome result (λ step. length operand.now ≡ 0) }
    ensures step { IfSome result (λ step.
        program.ends (opcodes_of header) (registers_of registers) taken ≡ Some (step_of step)) }
    ensures inside { IfSome result (λ step. step.taken ≡ taken) }
{
    if !operand.is_empty() {
        return None;
    }
    Some(Step {
        registers: header.start(),
        entry: Some(Entry::End(registers.address)),
        taken,
    })
}

/// Another address.
fn set_address(registers: Registers, operand: &[u8], taken: usize) -> Option<Step>
    ensures whole { IfSome result (λ step. length operand.now ≡ 8) }
    ensures step { IfSome result (λ step. program.changes
        (record (registers_of registers) { address = from_le_bytes w64 operand.now }) taken
        ≡ Some (step_of step)) }
    ensures inside { IfSome result (λ step. step.taken ≡ taken) }
{
    if operand.len() != 8 {
        return None;
    }
    let bytes = operand.first_chunk::<8>()?;
    let address = u64::from_le_bytes(*bytes);
    Some(changes(
        Registers {
            address,
            ..registers
        },
        taken,
    ))
}

/// So many operations on.
fn advance_pc(header: Header, registers: Registers, bytes: &[u8]) -> Option<Step>
    ensures step { IfSome result (λ step. program.when_read (unsigned_at bytes.now)
        (λ operations. program.changes
        (program.advanced (opcodes_of header) operations.0 (registers_of registers)) operations.1)
        ≡ Some (step_of step)) }
    ensures inside { IfSome result (λ step. step.taken ≤ length bytes.now) }
{
    let (operations, taken) = unsigned_in(bytes)?;
    let after = registers.advanced(header, operations)?;
    Some(changes(after, taken))
}

/// So many lines on.
fn advance_line(registers: Registers, bytes: &[u8]) -> Option<Step>
    ensures step { IfSome result (λ step. program.when_read (signed_at bytes.now)
        (λ lines. program.changes (program.moved lines.0 (registers_of registers)) lines.1)
        ≡ Some (step_of step)) }
    ensures inside { IfSome result (λ step. step.taken ≤ length bytes.now) }
{
    let (lines, taken) = signed_in(bytes)?;
    let after = registers.moved(lines)?;
    Some(changes(after, taken))
}

/// Another file.
fn set_file(registers: Registers, bytes: &[u8]) -> Option<Step>
    ensures step { IfSome result (λ step. program.when_read (unsigned_at bytes.now)
        (λ file. program.changes (record (registers_of registers) { file = file.0 }) file.1)
        ≡ Some (step_of step)) }
    ensures inside { IfSome result (λ step. step.taken ≤ length bytes.now) }
{
    let (file, taken) = unsigned_in(bytes)?;
    Some(changes(Registers { file, ..registers }, taken))
}

/// Rows that are, or are not, where a statement begins.
fn negate_stmt(registers: Registers) -> Step
    ensures step { program.changes
        (record (registers_of registers) { is_stmt = not registers.is_stmt }) 0
        ≡ Some (step_of result) }
    ensures taken { result.taken ≡ 0 }
{
    changes(
        Registers {
            is_stmt: !registers.is_stmt,
            ..registers
        },
        0,
    )
}

/// As many operations on as the last special opcode.
fn const_add_pc(header: Header, registers: Registers) -> Option<Step>
    ensures step { IfSome result (λ step. program.changes
        (program.advanced (opcodes_of header) ((255 - header.opcode_base) / header.line_range)
        (registers_of registers)) 0
        ≡ Some (step_of step)) }
    ensures inside { IfSome result (λ step. step.taken ≡ 0) }
{
    let operations = u64::from((255 - header.opcode_base) / header.line_range);
    let after = registers.advanced(header, operations)?;
    Some(changes(after, 0))
}

/// So many bytes on.
fn fixed_advance_pc(registers: Registers, bytes: &[u8]) -> Option<Step>
    ensures long { IfSome result (λ step. 2 ≤ length bytes.now) }
    ensures step { IfSome result (λ step. program.changes (record (registers_of registers) {
      address = registers.address + from_le_bytes w16 (take 2 bytes.now);
    }) 2 ≡ Some (step_of step)) }
    ensures inside { IfSome result (λ step. step.taken ≡ 2) }
{
    let [low, high, ..] = bytes else {
        return None;
    };
    let operations = u16::from_le_bytes([*low, *high]);
    let address = registers.address.checked_add(u64::from(operations))?;
    Some(changes(
        Registers {
            address,
            ..registers
        },
        2,
    ))
}

/// An instruction whose one operand says nothing of addresses and lines.
#[tactic(auto, unfolding(crate::specs::Machine::skip_operand))]
fn skip_operand(registers: Registers, bytes: &[u8]) -> Option<Step>
    ensures step { IfSome result (λ step.
        laws.skip_operand bytes.now (registers_of registers) ≡ Some (step_of step)) }
    ensures inside { IfSome result (λ step. step.taken ≤ length bytes.now) }
{
    let (_, taken) = unsigned_in(bytes)?;
    Some(changes(registers, taken))
}
