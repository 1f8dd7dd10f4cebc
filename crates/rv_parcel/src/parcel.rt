//! The `c.` mnemonics: what each takes, and the form that it is then.
//!
//! A source names a parcel by its mnemonic, and says its registers and its number. So which of them a form can have is
//! said by mnemonic: the reader of sources asks it, as does whoever writes the form.
//!
//! Source: RISC-V Unprivileged ISA 20191213, chapter 16, and its section 16.7 for the HINTs, which no mnemonic makes.

ghost use Rattle.std.specs.Prelude.{◌≡◌, ◌↔◌, false, true, ℕ, pos, negsuc, ◌<ℤ◌, slice_get, option_map};
ghost use Rattle.rv_parcel.specs.Mnemonics as is;
ghost use Rattle.rv_parcel.specs.Parcel.{IsNoHint};

use crate::form::Compressed;
use rv_isa::Reg;

/// A `c.` mnemonic, without its operands.
#[derive(Clone, Copy, Drop)]
pub enum ParcelOperation {
    Addi4spn,
    Lw,
    Ld,
    Sw,
    Sd,
    Nop,
    Addi,
    Addiw,
    Li,
    Addi16sp,
    Lui,
    Srli,
    Srai,
    Andi,
    Sub,
    Xor,
    Or,
    And,
    Subw,
    Addw,
    J,
    Beqz,
    Bnez,
    Slli,
    Lwsp,
    Ldsp,
    Jr,
    Mv,
    Ebreak,
    Jalr,
    Add,
    Swsp,
    Sdsp,
}

/// The registers that an operand can be.
#[derive(Clone, Copy, Drop)]
pub enum RegisterSet {
    /// Any register.
    Any,
    /// All but x0.
    Nonzero,
    /// x8 to x15.
    Short,
    /// x2.
    Stack,
    /// All but x0 and x2.
    Upper,
}

/// What stands beside the registers of a `c.` mnemonic.
#[derive(Clone, Copy, Drop)]
pub enum OperandShape {
    /// Nothing: `c.add a0,a1`
    Registers,
    /// A number behind them: `c.addi a0,1`
    Number,
    /// An offset before the last one: `c.lw a0,4(a1)`
    Address,
    /// A target behind them: `c.beqz a0,.+4`
    Target,
}

impl RegisterSet {
    /// Whether a register is one of the set.
    pub fn contains(self, reg: Reg) -> bool
        ensures { result ≡ is.is_of_set self reg }
    {
        let number = reg.number();
        match self {
            RegisterSet::Any => true,
            RegisterSet::Nonzero => number != 0,
            RegisterSet::Short => 8 <= number && number < 16,
            RegisterSet::Stack => number == 2,
            RegisterSet::Upper => number != 0 && number != 2,
        }
    }
}

impl ParcelOperation {
    /// The mnemonic, as a source writes it.
    pub fn name(self) -> &'static str
        ensures { result.now ≡ is.parcel_name self }
    {
        match self {
            ParcelOperation::Addi4spn => "c.addi4spn",
            ParcelOperation::Lw => "c.lw",
            ParcelOperation::Ld => "c.ld",
            ParcelOperation::Sw => "c.sw",
            ParcelOperation::Sd => "c.sd",
            ParcelOperation::Nop => "c.nop",
            ParcelOperation::Addi => "c.addi",
            ParcelOperation::Addiw => "c.addiw",
            ParcelOperation::Li => "c.li",
            ParcelOperation::Addi16sp => "c.addi16sp",
            ParcelOperation::Lui => "c.lui",
            ParcelOperation::Srli => "c.srli",
            ParcelOperation::Srai => "c.srai",
            ParcelOperation::Andi => "c.andi",
            ParcelOperation::Sub => "c.sub",
            ParcelOperation::Xor => "c.xor",
            ParcelOperation::Or => "c.or",
            ParcelOperation::And => "c.and",
            ParcelOperation::Subw => "c.subw",
            ParcelOperation::Addw => "c.addw",
            ParcelOperation::J => "c.j",
            ParcelOperation::Beqz => "c.beqz",
            ParcelOperation::Bnez => "c.bnez",
            ParcelOperation::Slli => "c.slli",
            ParcelOperation::Lwsp => "c.lwsp",
            ParcelOperation::Ldsp => "c.ldsp",
            ParcelOperation::Jr => "c.jr",
            ParcelOperation::Mv => "c.mv",
            ParcelOperation::Ebreak => "c.ebreak",
            ParcelOperation::Jalr => "c.jalr",
            ParcelOperation::Add => "c.add",
            ParcelOperation::Swsp => "c.swsp",
            ParcelOperation::Sdsp => "c.sdsp",
        }
    }

    /// What stands beside its registers.
    pub fn shape(self) -> OperandShape
        ensures { result ≡ is.shape_of self }
    {
        match self {
            ParcelOperation::Lw
            | ParcelOperation::Ld
            | ParcelOperation::Sw
            | ParcelOperation::Sd
            | ParcelOperation::Lwsp
            | ParcelOperation::Ldsp
            | ParcelOperation::Swsp
            | ParcelOperation::Sdsp => OperandShape::Address,
            ParcelOperation::Addi4spn
            | ParcelOperation::Addi
            | ParcelOperation::Addiw
            | ParcelOperation::Li
            | ParcelOperation::Addi16sp
            | ParcelOperation::Lui
            | ParcelOperation::Srli
            | ParcelOperation::Srai
            | ParcelOperation::Andi
            | ParcelOperation::Slli => OperandShape::Number,
            ParcelOperation::J | ParcelOperation::Beqz | ParcelOperation::Bnez => {
                OperandShape::Target
            }
            _ => OperandShape::Registers,
        }
    }

    /// What its first register can be; none where it has no register.
    pub fn first(self) -> Option<RegisterSet>
        ensures { result ≡ slice_get (is.register_sets self) 0 }
    {
        match self {
            ParcelOperation::Nop | ParcelOperation::Ebreak | ParcelOperation::J => None,
            ParcelOperation::Addi
            | ParcelOperation::Addiw
            | ParcelOperation::Li
            | ParcelOperation::Slli
            | ParcelOperation::Lwsp
            | ParcelOperation::Ldsp
            | ParcelOperation::Jr
            | ParcelOperation::Jalr
            | ParcelOperation::Mv
            | ParcelOperation::Add => Some(RegisterSet::Nonzero),
            ParcelOperation::Addi16sp => Some(RegisterSet::Stack),
            ParcelOperation::Lui => Some(RegisterSet::Upper),
            ParcelOperation::Swsp | ParcelOperation::Sdsp => Some(RegisterSet::Any),
            _ => Some(RegisterSet::Short),
        }
    }

    /// What its second register can be; none where it has no second register.
    pub fn second(self) -> Option<RegisterSet>
        ensures { result ≡ slice_get (is.register_sets self) 1 }
    {
        match self {
            ParcelOperation::Lw
            | ParcelOperation::Ld
            | ParcelOperation::Sw
            | ParcelOperation::Sd
            | ParcelOperation::Sub
            | ParcelOperation::Xor
            | ParcelOperation::Or
            | ParcelOperation::And
            | ParcelOperation::Subw
            | ParcelOperation::Addw => Some(RegisterSet::Short),
            ParcelOperation::Addi4spn
            | ParcelOperation::Lwsp
            | ParcelOperation::Ldsp
            | ParcelOperation::Swsp
            | ParcelOperation::Sdsp => Some(RegisterSet::Stack),
            ParcelOperation::Mv | ParcelOperation::Add => Some(RegisterSet::Nonzero),
            _ => None,
        }
    }

    /// Whether it takes these registers; a second one that it has not is not looked at, nor is a first.
    pub fn takes_registers(self, first: Reg, second: Reg) -> bool
        ensures { result ≡ is.are_in (is.register_sets self) (is.own_registers self first second) }
    {
        holds(self.first(), first) && holds(self.second(), second)
    }

    /// Whether it takes a number; one that has none takes 0.
    pub fn takes(self, number: i64) -> bool
        ensures { result ≡ is.takes_number self number }
    {
        match self {
            ParcelOperation::Addi4spn => is_multiple(4, 1024, number) && number != 0,
            ParcelOperation::Lw | ParcelOperation::Sw => is_multiple(4, 128, number),
            ParcelOperation::Ld | ParcelOperation::Sd => is_multiple(8, 256, number),
            ParcelOperation::Addi => is_six_bits(number) && number != 0,
            ParcelOperation::Addiw | ParcelOperation::Li | ParcelOperation::Andi => {
                is_six_bits(number)
            }
            ParcelOperation::Addi16sp => {
                -512 <= number && number <= 511 && number % 16 == 0 && number != 0
            }
            ParcelOperation::Lui => {
                1 <= number && number <= 31 || 0xfffe0 <= number && number <= 0xfffff
            }
            ParcelOperation::Srli | ParcelOperation::Srai | ParcelOperation::Slli => {
                1 <= number && number <= 63
            }
            ParcelOperation::Lwsp | ParcelOperation::Swsp => is_multiple(4, 256, number),
            ParcelOperation::Ldsp | ParcelOperation::Sdsp => is_multiple(8, 512, number),
            _ => number == 0,
        }
    }

    /// The form that it is with these registers and this number, where it takes them. A jump and a branch have none: a
    /// target stands in place of their number.
    pub fn form(self, first: Reg, second: Reg, number: i64) -> Option<Compressed>
        ensures { result ≡ is.form_of self (is.own_registers self first second) number }
    {
        if self.takes_registers(first, second) && self.takes(number) {
            made(self, first, second, number)
        } else {
            None
        }
    }
}

impl Compressed {
    /// The mnemonic of the form.
    pub fn operation(self) -> ParcelOperation
        ensures { result ≡ is.operation_of self }
    {
        match self {
            Compressed::Addi4spn { .. } => ParcelOperation::Addi4spn,
            Compressed::Lw { .. } => ParcelOperation::Lw,
            Compressed::Ld { .. } => ParcelOperation::Ld,
            Compressed::Sw { .. } => ParcelOperation::Sw,
            Compressed::Sd { .. } => ParcelOperation::Sd,
            Compressed::Nop { .. } => ParcelOperation::Nop,
            Compressed::Addi { .. } => ParcelOperation::Addi,
            Compressed::Addiw { .. } => ParcelOperation::Addiw,
            Compressed::Li { .. } => ParcelOperation::Li,
            Compressed::Addi16sp { .. } => ParcelOperation::Addi16sp,
            Compressed::Lui { .. } => ParcelOperation::Lui,
            Compressed::Srli { .. } => ParcelOperation::Srli,
            Compressed::Srai { .. } => ParcelOperation::Srai,
            Compressed::Andi { .. } => ParcelOperation::Andi,
            Compressed::Sub { .. } => ParcelOperation::Sub,
            Compressed::Xor { .. } => ParcelOperation::Xor,
            Compressed::Or { .. } => ParcelOperation::Or,
            Compressed::And { .. } => ParcelOperation::And,
            Compressed::Subw { .. } => ParcelOperation::Subw,
            Compressed::Addw { .. } => ParcelOperation::Addw,
            Compressed::J { .. } => ParcelOperation::J,
            Compressed::Beqz { .. } => ParcelOperation::Beqz,
            Compressed::Bnez { .. } => ParcelOperation::Bnez,
            Compressed::Slli { .. } => ParcelOperation::Slli,
            Compressed::Lwsp { .. } => ParcelOperation::Lwsp,
            Compressed::Ldsp { .. } => ParcelOperation::Ldsp,
            Compressed::Jr { .. } => ParcelOperation::Jr,
            Compressed::Mv { .. } => ParcelOperation::Mv,
            Compressed::Ebreak => ParcelOperation::Ebreak,
            Compressed::Jalr { .. } => ParcelOperation::Jalr,
            Compressed::Add { .. } => ParcelOperation::Add,
            Compressed::Swsp { .. } => ParcelOperation::Swsp,
            Compressed::Sdsp { .. } => ParcelOperation::Sdsp,
        }
    }

    /// Whether the form is a HINT, which no source writes by its mnemonic.
    pub fn is_hint(self) -> bool
        ensures { (result ≡ false) ↔ IsNoHint self }
    {
        match self {
            Compressed::Nop { immediate } => immediate != 0,
            Compressed::Addi { immediate, .. } => immediate == 0,
            Compressed::Li { rd, .. } | Compressed::Lui { rd, .. } => rd.number() == 0,
            Compressed::Mv { rd, .. } | Compressed::Add { rd, .. } => rd.number() == 0,
            Compressed::Slli { rd, amount } => rd.number() == 0 || amount == 0,
            Compressed::Srli { amount, .. } | Compressed::Srai { amount, .. } => amount == 0,
            _ => false,
        }
    }
}

/// Whether a register is one of the set, if there is one.
fn holds(set: Option<RegisterSet>, reg: Reg) -> bool
    ensures { result ≡ is.holds set reg }
{
    match set {
        Some(set) => set.contains(reg),
        None => true,
    }
}

/// Whether a number is a multiple of a unit, from 0 on and below a limit.
fn is_multiple(unit: i64, limit: i64, number: i64) -> bool
    requires { pos 0 <ℤ unit }
    ensures { (u l : ℕ) → unit ≡ pos u → limit ≡ pos l → result ≡ is.is_multiple u l number }
{
    0 <= number && number < limit && number % unit == 0
}

/// Whether a number has six bits in two's complement.
fn is_six_bits(number: i64) -> bool
    ensures { result ≡ is.is_between (negsuc 31) (pos 31) number }
{
    -32 <= number && number < 32
}

/// The form that a mnemonic is with registers and a number that it takes.
fn made(operation: ParcelOperation, first: Reg, second: Reg, number: i64) -> Option<Compressed>
    requires { is.takes_number operation number ≡ true }
    ensures { result ≡ option_map (λ make. make number)
        (is.form_with operation (is.own_registers operation first second)) }
{
    let form = match operation {
        ParcelOperation::J | ParcelOperation::Beqz | ParcelOperation::Bnez => return None,
        ParcelOperation::Addi4spn => Compressed::Addi4spn {
            rd: first,
            immediate: number as u32,
        },
        ParcelOperation::Lw => Compressed::Lw {
            rd: first,
            rs1: second,
            offset: number as u32,
        },
        ParcelOperation::Ld => Compressed::Ld {
            rd: first,
            rs1: second,
            offset: number as u32,
        },
        ParcelOperation::Sw => Compressed::Sw {
            rs1: second,
            rs2: first,
            offset: number as u32,
        },
        ParcelOperation::Sd => Compressed::Sd {
            rs1: second,
            rs2: first,
            offset: number as u32,
        },
        ParcelOperation::Nop => Compressed::Nop {
            immediate: number as i32,
        },
        ParcelOperation::Addi => Compressed::Addi {
            rd: first,
            immediate: number as i32,
        },
        ParcelOperation::Addiw => Compressed::Addiw {
            rd: first,
            immediate: number as i32,
        },
        ParcelOperation::Li => Compressed::Li {
            rd: first,
            immediate: number as i32,
        },
        ParcelOperation::Addi16sp => Compressed::Addi16sp {
            immediate: number as i32,
        },
        ParcelOperation::Lui => Compressed::Lui {
            rd: first,
            immediate: number as u32,
        },
        ParcelOperation::Srli => Compressed::Srli {
            rd: first,
            amount: number as u8,
        },
        ParcelOperation::Srai => Compressed::Srai {
            rd: first,
            amount: number as u8,
        },
        ParcelOperation::Andi => Compressed::Andi {
            rd: first,
            immediate: number as i32,
        },
        ParcelOperation::Sub => Compressed::Sub {
            rd: first,
            rs2: second,
        },
        ParcelOperation::Xor => Compressed::Xor {
            rd: first,
            rs2: second,
        },
        ParcelOperation::Or => Compressed::Or {
            rd: first,
            rs2: second,
        },
        ParcelOperation::And => Compressed::And {
            rd: first,
            rs2: second,
        },
        ParcelOperation::Subw => Compressed::Subw {
            rd: first,
            rs2: second,
        },
        ParcelOperation::Addw => Compressed::Addw {
            rd: first,
            rs2: second,
        },
        ParcelOperation::Slli => Compressed::Slli {
            rd: first,
            amount: number as u8,
        },
        ParcelOperation::Lwsp => Compressed::Lwsp {
            rd: first,
            offset: number as u32,
        },
        ParcelOperation::Ldsp => Compressed::Ldsp {
            rd: first,
            offset: number as u32,
        },
        ParcelOperation::Jr => Compressed::Jr { rs1: first },
        ParcelOperation::Mv => Compressed::Mv {
            rd: first,
            rs2: second,
        },
        ParcelOperation::Ebreak => Compressed::Ebreak,
        ParcelOperation::Jalr => Compressed::Jalr { rs1: first },
        ParcelOperation::Add => Compressed::Add {
            rd: first,
            rs2: second,
        },
        ParcelOperation::Swsp => Compressed::Swsp {
            rs2: first,
            offset: number as u32,
        },
        ParcelOperation::Sdsp => Compressed::Sdsp {
            rs2: first,
            offset: number as u32,
        },
    };
    Some(form)
}
