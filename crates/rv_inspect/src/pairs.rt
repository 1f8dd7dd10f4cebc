//! The addresses that two instructions make, as GNU's `objdump` tells them: the upper part of a `lui` or an `auipc` holds
//! until an instruction adds to that register.

use rv_isa::{Format, IType, ImmediateOperation, Inst, Reg, UType, UpperOperation};
use rv_parcel::Compressed;

/// The number of `gp`, whose value the linker knows.
const GP: u8 = 3;
/// The number of `tp`.
const TP: u8 = 4;

/// What registers hold that instructions before gave an upper part.
#[derive(Drop)]
pub(crate) struct Pairs {
    upper: [Option<u64>; 32],
    /// The value of `__global_pointer$`, where that is known.
    pointer: Option<u64>,
}

impl Pairs {
    /// None yet.
    pub(crate) fn new(pointer: Option<u64>) -> Pairs {
        Pairs {
            upper: [None; 32],
            pointer,
        }
    }

    /// The address that a parcel adds up to, where it does.
    pub(crate) fn follow_parcel(&mut self, parcel: Compressed, aliases: bool) -> Option<u64> {
        match parcel {
            Compressed::Lui { rd, immediate } => {
                self.set(rd, upper_of(immediate));
                None
            }
            Compressed::Addi { rd, immediate } => self.sum(rd, immediate),
            Compressed::Addiw { rd, immediate } => {
                if aliases && immediate == 0 {
                    return None;
                }
                Some(low_word(self.sum(rd, immediate)?))
            }
            _ => None,
        }
    }

    /// The address that a word adds up to, where it does.
    pub(crate) fn follow_word(&mut self, address: u64, inst: &Inst, aliases: bool) -> Option<u64> {
        match (*inst).format() {
            Format::Upper(operation, x) => {
                self.set_upper(address, operation, &x);
                None
            }
            Format::Immediate(operation, x) => self.follow_immediate(operation, &x, aliases),
            Format::Load(_, x) => self.sum(x.rs1, x.immediate),
            Format::Store(_, x) => self.sum(x.rs1, x.immediate),
            Format::Jalr(x) => {
                if aliases && is_return(&x) {
                    return None;
                }
                self.sum(x.rs1, x.immediate)
            }
            _ => None,
        }
    }

    fn follow_immediate(
        &mut self,
        operation: ImmediateOperation,
        x: &IType,
        aliases: bool,
    ) -> Option<u64> {
        if x.rs1.number() == 0 || (aliases && x.immediate == 0) {
            return None;
        }
        match operation {
            ImmediateOperation::Addi => self.sum(x.rs1, x.immediate),
            ImmediateOperation::Addiw => Some(low_word(self.sum(x.rs1, x.immediate)?)),
            _ => None,
        }
    }

    fn set_upper(&mut self, address: u64, operation: UpperOperation, x: &UType) {
        let upper = upper_of(x.immediate);
        match operation {
            UpperOperation::Lui => self.set(x.rd, upper),
            UpperOperation::Auipc => self.set(x.rd, address.wrapping_add(upper)),
        }
    }

    fn set(&mut self, register: Reg, value: u64) {
        if let Some(upper) = self.upper.get_mut(register.number() as usize) {
            *upper = Some(value);
        }
    }

    /// What a register has with a number added, where that is known; it is forgotten then.
    fn sum(&mut self, register: Reg, immediate: i32) -> Option<u64> {
        let known = match self.take(register) {
            Some(value) => Some(if register.number() == 0 { 0 } else { value }),
            None => self.fixed(register),
        };
        Some(known?.wrapping_add_signed(i64::from(immediate)))
    }

    fn take(&mut self, register: Reg) -> Option<u64> {
        let upper = self.upper.get_mut(register.number() as usize)?;
        let value = *upper;
        *upper = None;
        value
    }

    /// What a register has all the time: `gp`, where it is known, and 0 in `zero` and before the variables of a thread.
    fn fixed(&self, register: Reg) -> Option<u64> {
        match register.number() {
            GP => self.pointer,
            0 | TP => Some(0),
            _ => None,
        }
    }
}

/// `ret`.
fn is_return(x: &IType) -> bool {
    x.rd.number() == 0 && x.rs1.number() == 1 && x.immediate == 0
}

/// The number that `lui` makes of its 20 bits.
fn upper_of(immediate: u32) -> u64 {
    sign_extended(u64::from(immediate) * 4096)
}

/// The lower 32 bits with their sign.
fn low_word(number: u64) -> u64 {
    sign_extended(number % 0x1_0000_0000)
}

/// A number of 32 bits with their sign.
fn sign_extended(number: u64) -> u64 {
    if number < 0x8000_0000 {
        number
    } else {
        number.wrapping_sub(0x1_0000_0000)
    }
}
