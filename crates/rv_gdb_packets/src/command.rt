//! What a packet asks.

ghost use Rattle.std.specs.Prelude.{◌≡◌, ◌⊎◌, ℕ, false, List, ◌∷◌, IfSome, drop};
ghost use Rattle.rv_gdb_packets.specs.Numbers.{number_on};
ghost use Rattle.rv_gdb_packets.specs.Asked.{ReadsFrom, reads, writes, begins_write};
ghost use Rattle.rv_gdb_packets.specs.declared.command.Command.TheVariants.{ReadRegister, ReadRegisters, Unknown};

use crate::numbers::{number_at, number_behind};
use crate::points::PointKind;

/// Bytes of memory.
#[derive(Clone, Copy, PartialEq, Eq, Drop)]
pub struct Range {
    /// The address of the first.
    pub address: u64,
    pub length: u64,
}

/// How the program is to go.
#[derive(Clone, Copy, Drop)]
pub enum Motion {
    /// On, until something stops it.
    Continue,
    /// On by an instruction.
    Step,
    /// Back, until something stops it.
    ContinueBack,
    /// Back by an instruction.
    StepBack,
}

/// Which words of an answer a debugger takes.
#[derive(Clone, Copy, Drop)]
pub struct Features {
    pub swbreak: bool,
    pub hwbreak: bool,
}

/// What a packet asks. Where it brings data, `at` is the index of their first byte in the packet.
#[derive(Clone, Copy, Drop)]
pub enum Command {
    /// What the other side can do, and what this side takes.
    Supported(Features),
    /// Why the program stands.
    WhyStopped,
    /// Whether the program was there before the debugger.
    IsAttached,
    ReadRegisters,
    WriteRegisters { at: usize },
    ReadRegister(u64),
    WriteRegister { number: u64, at: usize },
    ReadMemory(Range),
    /// Data are pairs of digits.
    WriteMemory { range: Range, at: usize },
    /// Data are the bytes.
    WriteBytes { range: Range, at: usize },
    Go(Motion),
    /// How the program can go.
    Motions,
    Insert { kind: PointKind, range: Range },
    Remove { kind: PointKind, range: Range },
    /// The thread that there is.
    Thread,
    /// One that there is not.
    OtherThread,
    CurrentThread,
    Threads,
    MoreThreads,
    /// A part of the target's description.
    Description(Range),
    /// A line for the simulator itself, as pairs of digits.
    Monitor { at: usize },
    Detach,
    /// The end of the session, with no answer.
    Kill,
    /// The same, with one.
    KillProcess,
    /// Nothing that is known here.
    Unknown,
}

impl Command {
    /// Whether it asks for the state of the program, or for nothing that is known.
    pub fn reads(self) -> bool
        ensures { result ≡ reads self }
    {
        matches!(
            self,
            Command::ReadRegisters
                | Command::ReadRegister(_)
                | Command::ReadMemory(_)
                | Command::Unknown
        )
    }

    /// Whether it writes registers or memory.
    pub fn writes(self) -> bool
        ensures { result ≡ writes self }
    {
        matches!(
            self,
            Command::WriteRegisters { .. }
                | Command::WriteRegister { .. }
                | Command::WriteMemory { .. }
                | Command::WriteBytes { .. }
        )
    }
}

/// The range that stands from an index on, as `ADDRESS,LENGTH`, and the index behind it.
fn range_at(bytes: &[u8], start: usize) -> Option<(Range, usize)>
    ensures { IfSome result (λ found. found.0.address ≡ number_on 0 (drop start bytes.now)) }
{
    let address = number_at(bytes, start)?;
    let length = number_behind(bytes, address.end, b',')?;
    let range = Range {
        address: address.value,
        length: length.value,
    };
    Some((range, length.end))
}

/// A write: a range, a colon and data.
fn data_at(bytes: &[u8], start: usize) -> Option<(Range, usize)> {
    let (range, end) = range_at(bytes, start)?;
    if end < bytes.len() && bytes[end] == b':' {
        return Some((range, end + 1));
    }
    None
}

/// The kind of a point: `Z0` to `Z4`.
fn kind_of(digit: u8) -> Option<PointKind> {
    match digit {
        b'0' => Some(PointKind::Software),
        b'1' => Some(PointKind::Hardware),
        b'2' => Some(PointKind::Write),
        b'3' => Some(PointKind::Read),
        b'4' => Some(PointKind::Access),
        _ => None,
    }
}

/// A point: its kind, a comma and a range.
fn point_in(packet: &[u8]) -> Option<(PointKind, Range)> {
    if packet.len() < 3 || packet[2] != b',' {
        return None;
    }
    let kind = kind_of(packet[1])?;
    let (range, _) = range_at(packet, 3)?;
    Some((kind, range))
}

/// How the first action of `vCont` has the program go; signals are for nobody here.
fn action_of(letter: u8) -> Command
    ensures { writes result ≡ false }
{
    match letter {
        b'c' | b'C' => Command::Go(Motion::Continue),
        b's' | b'S' => Command::Go(Motion::Step),
        _ => Command::Unknown,
    }
}

/// What a packet asks whose first letter is `v`.
fn v_command(packet: &[u8]) -> Command
    ensures { writes result ≡ false }
{
    if packet == b"vCont?".as_slice() {
        return Command::Motions;
    }
    if packet.starts_with(b"vCont;") && packet.len() > 6 {
        return action_of(packet[6]);
    }
    if packet.starts_with(b"vKill;") {
        return Command::KillProcess;
    }
    Command::Unknown
}

/// What a query asks.
fn query(packet: &[u8]) -> Command
    ensures { writes result ≡ false }
{
    // (a `match` of these would be one test a byte)
    if packet == b"qC".as_slice() {
        return Command::CurrentThread;
    }
    if packet == b"qfThreadInfo".as_slice() {
        return Command::Threads;
    }
    if packet == b"qsThreadInfo".as_slice() {
        return Command::MoreThreads;
    }
    long_query(packet)
}

/// Whether a word stands somewhere in a packet.
fn has_word(packet: &[u8], word: &[u8]) -> bool {
    for start in 0..packet.len() {
        if packet.split_at(start).1.starts_with(word) {
            return true;
        }
    }
    false
}

/// What a query asks that has operands.
fn long_query(packet: &[u8]) -> Command
    ensures { writes result ≡ false }
{
    if packet.starts_with(b"qSupported") {
        return Command::Supported(Features {
            swbreak: has_word(packet, b"swbreak+"),
            hwbreak: has_word(packet, b"hwbreak+"),
        });
    }
    if packet.starts_with(b"qAttached") {
        return Command::IsAttached;
    }
    if packet.starts_with(b"qRcmd,") {
        return Command::Monitor { at: 6 };
    }
    description_in(packet)
}

/// What stands before the part of the target's description that is asked for.
const DESCRIPTION: &[u8] = b"qXfer:features:read:target.xml:";

/// A query for a part of the target's description.
fn description_in(packet: &[u8]) -> Command
    ensures { writes result ≡ false }
{
    if !packet.starts_with(DESCRIPTION) {
        return Command::Unknown;
    }
    match range_at(packet, DESCRIPTION.len()) {
        Some((range, _)) => Command::Description(range),
        None => Command::Unknown,
    }
}

/// A write to a register: its number, `=` and its value.
fn write_register(packet: &[u8]) -> Command {
    match number_at(packet, 1) {
        Some(number) if number.end < packet.len() && packet[number.end] == b'=' => {
            Command::WriteRegister {
                number: number.value,
                at: number.end + 1,
            }
        }
        _ => Command::Unknown,
    }
}

/// A read of memory.
fn read_memory(packet: &[u8]) -> Command
    ensures memory { (digits : List ℕ) → drop 1 packet.now ≡ digits → ReadsFrom digits result }
    ensures reads { writes result ≡ false }
{
    match range_at(packet, 1) {
        Some((range, _)) => Command::ReadMemory(range),
        None => Command::Unknown,
    }
}

/// A read of a register.
fn read_register(packet: &[u8]) -> Command
    ensures register { (digits : List ℕ) → drop 1 packet.now ≡ digits →
        (result ≡ Unknown) ⊎ (result ≡ ReadRegister (number_on 0 digits)) }
    ensures reads { writes result ≡ false }
{
    match number_at(packet, 1) {
        Some(number) => Command::ReadRegister(number.value),
        None => Command::Unknown,
    }
}

/// A write to memory, by its letter.
fn write_memory(letter: u8, packet: &[u8]) -> Command {
    match letter {
        b'M' => match data_at(packet, 1) {
            Some((range, at)) => Command::WriteMemory { range, at },
            None => Command::Unknown,
        },
        _ => match data_at(packet, 1) {
            Some((range, at)) => Command::WriteBytes { range, at },
            None => Command::Unknown,
        },
    }
}

/// A point that is set or taken away, by the letter of the command.
fn point_command(letter: u8, packet: &[u8]) -> Command
    ensures { writes result ≡ false }
{
    match point_in(packet) {
        Some((kind, range)) if letter == b'Z' => Command::Insert { kind, range },
        Some((kind, range)) => Command::Remove { kind, range },
        None => Command::Unknown,
    }
}

/// A command to go on from where the program stands, by its letter: `C` and `S` have the digits of a signal, which is for
/// nobody here. One that names an address is not known.
fn go_command(letter: u8, packet: &[u8]) -> Command
    ensures { writes result ≡ false }
{
    let length = match letter {
        b'c' | b's' => 1,
        _ => 3,
    };
    if packet.len() != length {
        return Command::Unknown;
    }
    action_of(letter)
}

/// A question about a thread, whose number stands from an index on: 1, or 0 for any, or -1 for all.
fn thread_command(packet: &[u8], at: usize) -> Command
    ensures { writes result ≡ false }
{
    let name = packet.split_at(at.min(packet.len())).1;
    if name == b"-1".as_slice() {
        return Command::Thread;
    }
    match number_at(name, 0) {
        Some(number) if number.value < 2 && number.end == name.len() => Command::Thread,
        _ => Command::OtherThread,
    }
}

/// What a packet asks: `g` all registers, `p` the one whose number follows, `m` memory from the address that follows.
pub fn command_of(packet: &[u8]) -> Command
    ensures registers { (rest : List ℕ) → packet.now ≡ 103 ∷ rest → result ≡ ReadRegisters }
    ensures register { (digits : List ℕ) → packet.now ≡ 112 ∷ digits →
        (result ≡ Unknown) ⊎ (result ≡ ReadRegister (number_on 0 digits)) }
    ensures memory { (digits : List ℕ) → packet.now ≡ 109 ∷ digits → ReadsFrom digits result }
    ensures others { (letter : ℕ) (rest : List ℕ) → packet.now ≡ letter ∷ rest →
        begins_write letter ≡ false → writes result ≡ false }
{
    let Some(letter) = packet.first() else {
        return Command::Unknown;
    };
    match *letter {
        b'?' => Command::WhyStopped,
        b'g' => Command::ReadRegisters,
        b'G' => Command::WriteRegisters { at: 1 },
        b'p' => read_register(packet),
        b'P' => write_register(packet),
        b'm' => read_memory(packet),
        b'M' | b'X' => write_memory(*letter, packet),
        b'c' | b'C' | b's' | b'S' => go_command(*letter, packet),
        b'b' => back_command(packet),
        b'Z' | b'z' => point_command(*letter, packet),
        b'H' => thread_command(packet, 2),
        b'T' => thread_command(packet, 1),
        b'D' => Command::Detach,
        b'k' => Command::Kill,
        b'v' => v_command(packet),
        b'q' => query(packet),
        _ => Command::Unknown,
    }
}

/// A command to go back.
fn back_command(packet: &[u8]) -> Command
    ensures { writes result ≡ false }
{
    match packet {
        b"bs" => Command::Go(Motion::StepBack),
        b"bc" => Command::Go(Motion::ContinueBack),
        _ => Command::Unknown,
    }
}
