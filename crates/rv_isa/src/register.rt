//! The thirty-two integer registers.

ghost use Rattle.std.specs.Prelude.{◌≡◌, ℕ, ◌<◌, ◌%◌, MatchOption, ◌≤◌, slice_get};
ghost use Rattle.rv_isa.specs.RegisterNames.{abi_names};

use std::marker::Model;

/// An integer register, x0 to x31; clauses see its number.
#[derive(Clone, Copy, PartialEq, Eq, Drop)]
pub struct Reg(u8);

impl Model for Reg {
    ghost Value = { ℕ };

    ghost view = { λ r. r.0 };

    ghost invariant = { λ r. r.0 < 32 };

    ghost inverse = { λ n. record { 0 = n } };
}

impl Reg {
    /// x0, which is always 0.
    pub const ZERO: Self = Reg(0);
    /// x1, where calls leave their return address.
    pub const RA: Self = Reg(1);
    /// x2, the stack pointer.
    pub const SP: Self = Reg(2);
    /// x6, a temporary.
    pub const T1: Self = Reg(6);
    /// x8, a saved register, or the frame pointer.
    pub const S0: Self = Reg(8);

    /// The register of this number, 0 to 31; `None` from 32 on.
    pub fn new(number: u8) -> Option<Self>
        ensures { MatchOption result (32 ≤ number) (λ r. (number < 32) × (r ≡ number)) }
    {
        if number < 32 { Some(Reg(number)) } else { None }
    }

    /// The register that the low five bits name.
    pub fn from_low_bits(bits: u32) -> Self
        ensures { result ≡ bits % 32 }
    {
        Reg((bits % 32) as u8)
    }

    /// The register's number, 0 to 31.
    pub fn number(self) -> u8
        ensures number { result ≡ self }
        ensures below { result < 32 }
    {
        self.0
    }

    /// The register's ABI name: `s0` for x8.
    #[tactic(auto, unfolding(crate::specs::RegisterNames::abi_names))]
    pub fn abi_name(self) -> &'static str
        ensures { slice_get abi_names self ≡ Some result.now }
    {
        match self.0 {
            0 => "zero",
            1 => "ra",
            2 => "sp",
            3 => "gp",
            4 => "tp",
            5 => "t0",
            6 => "t1",
            7 => "t2",
            8 => "s0",
            9 => "s1",
            10 => "a0",
            11 => "a1",
            12 => "a2",
            13 => "a3",
            14 => "a4",
            15 => "a5",
            16 => "a6",
            17 => "a7",
            18 => "s2",
            19 => "s3",
            20 => "s4",
            21 => "s5",
            22 => "s6",
            23 => "s7",
            24 => "s8",
            25 => "s9",
            26 => "s10",
            27 => "s11",
            28 => "t3",
            29 => "t4",
            30 => "t5",
            _ => "t6",
        }
    }
}
