//! Instructions that this language leaves out, by the extensions that have them.
//!
//! Source: RISC-V Unprivileged ISA 20191213, chapters 3, 8 to 12 and 16, and its tables of pseudoinstructions; RISC-V
//! Privileged ISA 20211203, chapters 3, 4 and 8.

/// What has an instruction of a name.
#[derive(Clone, Copy, Drop)]
enum Owner {
    /// The F extension: floating point of 32 bits.
    Single,
    /// The D extension: floating point of 64 bits.
    Double,
    /// The Zicsr extension: control and status registers, the counters among them.
    Registers,
    /// The Zifencei extension.
    Fetch,
    /// The privileged instruction set.
    Privileged,
    /// This language, where the name goes on with a width.
    Width,
}

/// Names of instructions, in the order of their bytes.
const NAMES: [(&str, Owner); 133] = [
    ("amoadd", Owner::Width),
    ("amoand", Owner::Width),
    ("amomax", Owner::Width),
    ("amomaxu", Owner::Width),
    ("amomin", Owner::Width),
    ("amominu", Owner::Width),
    ("amoor", Owner::Width),
    ("amoswap", Owner::Width),
    ("amoxor", Owner::Width),
    ("c.fld", Owner::Double),
    ("c.fldsp", Owner::Double),
    ("c.flw", Owner::Single),
    ("c.flwsp", Owner::Single),
    ("c.fsd", Owner::Double),
    ("c.fsdsp", Owner::Double),
    ("c.fsw", Owner::Single),
    ("c.fswsp", Owner::Single),
    ("csrc", Owner::Registers),
    ("csrci", Owner::Registers),
    ("csrr", Owner::Registers),
    ("csrrc", Owner::Registers),
    ("csrrci", Owner::Registers),
    ("csrrs", Owner::Registers),
    ("csrrsi", Owner::Registers),
    ("csrrw", Owner::Registers),
    ("csrrwi", Owner::Registers),
    ("csrs", Owner::Registers),
    ("csrsi", Owner::Registers),
    ("csrw", Owner::Registers),
    ("csrwi", Owner::Registers),
    ("fabs.d", Owner::Double),
    ("fabs.s", Owner::Single),
    ("fadd.d", Owner::Double),
    ("fadd.s", Owner::Single),
    ("fclass.d", Owner::Double),
    ("fclass.s", Owner::Single),
    ("fcvt.d.l", Owner::Double),
    ("fcvt.d.lu", Owner::Double),
    ("fcvt.d.s", Owner::Double),
    ("fcvt.d.w", Owner::Double),
    ("fcvt.d.wu", Owner::Double),
    ("fcvt.l.d", Owner::Double),
    ("fcvt.l.s", Owner::Single),
    ("fcvt.lu.d", Owner::Double),
    ("fcvt.lu.s", Owner::Single),
    ("fcvt.s.d", Owner::Double),
    ("fcvt.s.l", Owner::Single),
    ("fcvt.s.lu", Owner::Single),
    ("fcvt.s.w", Owner::Single),
    ("fcvt.s.wu", Owner::Single),
    ("fcvt.w.d", Owner::Double),
    ("fcvt.w.s", Owner::Single),
    ("fcvt.wu.d", Owner::Double),
    ("fcvt.wu.s", Owner::Single),
    ("fdiv.d", Owner::Double),
    ("fdiv.s", Owner::Single),
    ("fence.i", Owner::Fetch),
    ("feq.d", Owner::Double),
    ("feq.s", Owner::Single),
    ("fge.d", Owner::Double),
    ("fge.s", Owner::Single),
    ("fgt.d", Owner::Double),
    ("fgt.s", Owner::Single),
    ("fld", Owner::Double),
    ("fle.d", Owner::Double),
    ("fle.s", Owner::Single),
    ("flt.d", Owner::Double),
    ("flt.s", Owner::Single),
    ("flw", Owner::Single),
    ("fmadd.d", Owner::Double),
    ("fmadd.s", Owner::Single),
    ("fmax.d", Owner::Double),
    ("fmax.s", Owner::Single),
    ("fmin.d", Owner::Double),
    ("fmin.s", Owner::Single),
    ("fmsub.d", Owner::Double),
    ("fmsub.s", Owner::Single),
    ("fmul.d", Owner::Double),
    ("fmul.s", Owner::Single),
    ("fmv.d", Owner::Double),
    ("fmv.d.x", Owner::Double),
    ("fmv.s", Owner::Single),
    ("fmv.s.x", Owner::Single),
    ("fmv.w.x", Owner::Single),
    ("fmv.x.d", Owner::Double),
    ("fmv.x.s", Owner::Single),
    ("fmv.x.w", Owner::Single),
    ("fneg.d", Owner::Double),
    ("fneg.s", Owner::Single),
    ("fnmadd.d", Owner::Double),
    ("fnmadd.s", Owner::Single),
    ("fnmsub.d", Owner::Double),
    ("fnmsub.s", Owner::Single),
    ("frcsr", Owner::Single),
    ("frflags", Owner::Single),
    ("frrm", Owner::Single),
    ("fscsr", Owner::Single),
    ("fsd", Owner::Double),
    ("fsflags", Owner::Single),
    ("fsflagsi", Owner::Single),
    ("fsgnj.d", Owner::Double),
    ("fsgnj.s", Owner::Single),
    ("fsgnjn.d", Owner::Double),
    ("fsgnjn.s", Owner::Single),
    ("fsgnjx.d", Owner::Double),
    ("fsgnjx.s", Owner::Single),
    ("fsqrt.d", Owner::Double),
    ("fsqrt.s", Owner::Single),
    ("fsrm", Owner::Single),
    ("fsrmi", Owner::Single),
    ("fsub.d", Owner::Double),
    ("fsub.s", Owner::Single),
    ("fsw", Owner::Single),
    ("hfence.gvma", Owner::Privileged),
    ("hfence.vvma", Owner::Privileged),
    ("hinval.gvma", Owner::Privileged),
    ("hinval.vvma", Owner::Privileged),
    ("lr", Owner::Width),
    ("mret", Owner::Privileged),
    ("rdcycle", Owner::Registers),
    ("rdcycleh", Owner::Registers),
    ("rdinstret", Owner::Registers),
    ("rdinstreth", Owner::Registers),
    ("rdtime", Owner::Registers),
    ("rdtimeh", Owner::Registers),
    ("sc", Owner::Width),
    ("sfence.inval.ir", Owner::Privileged),
    ("sfence.vma", Owner::Privileged),
    ("sfence.w.inval", Owner::Privileged),
    ("sinval.vma", Owner::Privileged),
    ("sret", Owner::Privileged),
    ("uret", Owner::Privileged),
    ("wfi", Owner::Privileged),
];

/// What is said of a name that is none of this language, behind the name.
pub(crate) fn words_of_unknown(name: &[u8]) -> &'static str {
    match owner_of(name) {
        Some(Owner::Single) => {
            " is an instruction of the F extension, which this language leaves out"
        }
        Some(Owner::Double) => {
            " is an instruction of the D extension, which this language leaves out"
        }
        Some(Owner::Registers) => {
            " is an instruction of the Zicsr extension, which this language leaves out"
        }
        Some(Owner::Fetch) => {
            " is an instruction of the Zifencei extension, which this language leaves out"
        }
        Some(Owner::Privileged) => {
            " is a privileged instruction, which this language leaves out"
        }
        Some(Owner::Width) => " is the name of no instruction: one ends in .w or .d",
        None => " is the name of no instruction",
    }
}

/// Whether a name is that of an instruction which this language leaves out, or of one without its width.
pub(crate) fn is_of_extension(name: &[u8]) -> bool {
    owner_of(name).is_some()
}

/// What has the instruction of a name, where it is in the table.
fn owner_of(name: &[u8]) -> Option<Owner> {
    match NAMES.binary_search_by_key(&name, |row| row.0.as_bytes()) {
        Ok(index) => NAMES.get(index).map(|row| row.1),
        Err(_) => None,
    }
}
