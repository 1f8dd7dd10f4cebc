//! What stands for a statement: instructions, with the relocations of the operands that are still open.

ghost use Rattle.std.specs.Prelude.{◌≡◌, [], ◌∷◌, map};
ghost use Rattle.rv_pseudo.specs.Faults as faults;
ghost use Rattle.rv_pseudo.specs.Templates as is;

use arrayvec::ArrayVec;
use rv_fault::SourceCode;
use rv_isa::{Inst, Kind};

/// What an expression is worth to an instruction.
#[derive(Clone, Copy, Drop)]
pub enum Worth {
    /// A constant.
    Number(i64),
    /// The address of a symbol and a constant beside it: whether the symbol is a label of the source. Only `%pcrel_lo` asks
    /// that.
    Address(bool),
    /// Neither, and the fault.
    Wrong(SourceCode),
}

/// How a statement is written: what its templates depend on beside the statement.
#[derive(Clone, Copy, Drop)]
pub struct Form {
    /// Whether compressed code is on.
    pub rvc: bool,
    /// The bytes of a conditional branch (2, 4 or 8) or of `jal x0` (2 or 4); not looked at in others. A call has 8: only
    /// the linker shortens it.
    pub bytes: u8,
    /// The constant that its expression is, before a function of it; none where a symbol leaves it open.
    pub value: Option<i64>,
}

/// A form in which an expression may also be faulty, as whoever evaluates it finds out.
#[derive(Clone, Copy, Drop)]
pub struct Manner {
    /// What the statement's expression is worth, before a function of it.
    pub worth: Worth,
    /// As in a form.
    pub bytes: u8,
    /// As in a form.
    pub rvc: bool,
}

/// An instruction of a statement.
#[derive(Clone, Copy, Drop)]
pub struct Template {
    pub inst: Inst,
    /// The relocation of an operand that is still open, whose field in `inst` is 0. That of a call stands at its first
    /// instruction and fills both.
    pub reloc: Option<Kind>,
}

/// What a place of a fixed list holds before it is used.
impl Default for Template {
    fn default() -> Self {
        plain(Inst::default())
    }
}

/// The templates of a statement, eight at most.
pub type Templates = ArrayVec<Template, 8>;

/// The manner of a form: no fault of an expression stands in it.
pub(crate) fn manner_of(form: Form) -> Manner
    ensures { result ≡ is.manner_of form }
{
    let worth = match form.value {
        Some(number) => Worth::Number(number),
        None => Worth::Address(true),
    };
    Manner {
        worth,
        bytes: form.bytes,
        rvc: form.rvc,
    }
}

/// The constant that an expression is, if it is one.
pub(crate) fn constant(worth: Worth) -> Option<i64>
    ensures { result ≡ faults.constant_in (faults.worth_of worth) }
{
    match worth {
        Worth::Number(number) => Some(number),
        Worth::Address(_) => None,
        Worth::Wrong(_) => None,
    }
}

/// An instruction whose operands are all known.
pub(crate) fn plain(inst: Inst) -> Template
    ensures { result ≡ is.plain inst }
{
    Template { inst, reloc: None }
}

/// An instruction with an operand that a relocation will fill.
pub(crate) fn under(kind: Kind, inst: Inst) -> Template
    ensures { result ≡ is.under kind inst }
{
    Template {
        inst,
        reloc: Some(kind),
    }
}

/// One template.
pub(crate) fn one(template: Template) -> Templates
    ensures { result.items ≡ template ∷ [] }
{
    let Template { inst, reloc } = template;
    with_reloc(inst, reloc)
}

/// Two templates.
pub(crate) fn two(first: Template, second: Template) -> Templates
    ensures { result.items ≡ first ∷ second ∷ [] }
{
    let mut templates = one(first);
    let Template { inst, reloc } = second;
    templates.push(Template { inst, reloc });
    templates
}

/// One instruction with the relocation of its operand, if that is open.
pub(crate) fn with_reloc(inst: Inst, reloc: Option<Kind>) -> Templates
    ensures { result.items ≡ is.with_reloc reloc inst }
{
    let mut templates = ArrayVec::new();
    templates.push(Template { inst, reloc });
    templates
}

/// Instructions whose operands are all known.
pub(crate) fn all_plain(sequence: ArrayVec<Inst, 8>) -> Templates
    ensures { result.items ≡ map is.plain sequence.items }
{
    let mut templates = ArrayVec::new();
    for inst in sequence.as_slice() {
        templates.push(Template {
            inst: *inst,
            reloc: None,
        });
    }
    templates
}
