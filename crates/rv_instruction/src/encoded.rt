//! Instructions as they lie in memory.
//!
//! Source: RISC-V Unprivileged ISA 20191213, section 1.5 and chapter 16; RISC-V ELF psABI,
//! "Relocations".

ghost use Rattle.std.specs.Prelude.{◌≡◌, ◌≤◌, ◌&&◌, ◌∷◌, [], Bool, true, false, None, Some, MatchOption, length, map};
ghost use Rattle.rv_isa.specs.Ranges.{IsValid};
ghost use Rattle.rv_parcel.specs.Parcel.{IsLine, IsShortOf, expansion};
ghost use Rattle.rv_parcel.specs.Encoded.{HasShort};
ghost use Rattle.rv_pseudo_laws.specs.Code.{Closed, Open};
ghost use Rattle.rv_pseudo_laws.specs.Filled.{are_closed};
ghost use Rattle.rv_assemble_laws.specs.Coded.{IsCodedPart, AreCodedParts};
ghost use Rattle.rv_instruction.specs.Code as laws;
ghost use Rattle.rv_instruction.specs.Code.{encoded_bytes, encoded_instructions, coded_by, shape_in, shape_of, part_of, part_by, parts_in, IsCodable, AreCodable};

use arrayvec::ArrayVec;
use rv_compress::{shrink, write};
use rv_encode::encode;
use rv_isa::{Inst, Kind};
use rv_parcel::Compressed;
use rv_pseudo::{Template, Templates};

/// A part of a statement's code as it lies in memory.
#[derive(Clone, Copy, Drop)]
pub enum Encoded {
    /// The parcel that is chosen for an instruction.
    Parcel(u16),
    /// An instruction's word.
    Word(u32),
    /// The words of two instructions whose fields are filled as one.
    Pair(u32, u32),
}

/// A part of a statement's code, with the kind of the field that it leaves open, if it leaves one.
#[derive(Clone, Copy, Drop)]
pub struct Coded {
    pub encoded: Encoded,
    pub kind: Option<Kind>,
}

/// What a place of a fixed list holds before it is used.
impl Default for Coded {
    fn default() -> Self {
        Coded {
            encoded: Encoded::Word(0),
            kind: None,
        }
    }
}

/// The code of a statement, eight parts at most.
pub type Code = ArrayVec<Coded, 8>;

// ---- one part

/// The parcel that is chosen for an instruction, where compressed code is on and there is one.
#[tactic(auto, using(crate::proofs::EncodingLemmas::shortest))]
fn shortened(inst: &Inst, compressed: bool) -> Option<u16>
    ensures { MatchOption result (compressed ≡ true → HasShort inst.now → ⊥)
        (λ p. (compressed ≡ true) × IsShortOf inst.now p) }
{
    if compressed { shrink(*inst) } else { None }
}

/// An instruction in its least form.
#[tactic(auto, using(crate::proofs::EncodingLemmas::as_parcel, crate::proofs::EncodingLemmas::as_word))]
pub(crate) fn in_least_form(inst: Inst, compressed: bool) -> Encoded
    requires { IsValid inst }
    ensures is { IsCodedPart None compressed (Closed inst) (encoded_bytes result) }
    ensures one { encoded_instructions result ≡ 1 }
{
    match shortened(&inst, compressed) {
        Some(parcel) => Encoded::Parcel(parcel),
        None => Encoded::Word(encode(inst)),
    }
}

/// The parcel of a form that a statement names, compressed code or not.
#[tactic(auto, using(crate::proofs::EncodingLemmas::as_named))]
pub(crate) fn in_named_form(form: Compressed) -> Encoded
    requires { IsLine form }
    ensures is { (compressed : Bool)
        → IsCodedPart (Some form) compressed (Closed (expansion form)) (encoded_bytes result) }
    ensures one { encoded_instructions result ≡ 1 }
{
    Encoded::Parcel(write(form))
}

/// An instruction with an open field in a parcel.
#[tactic(auto, using(crate::proofs::EncodingLemmas::open_parcel, crate::proofs::EncodingLemmas::no_parcel))]
fn as_parcel(inst: Inst, kind: Kind) -> Encoded
    requires codable { IsCodable (Open kind inst) }
    requires short { laws.is_short kind ≡ true }
    ensures is { (compressed : Bool)
        → IsCodedPart None compressed (Open kind inst) (encoded_bytes result) }
    ensures one { encoded_instructions result ≡ 1 }
{
    match shrink(inst) {
        Some(parcel) => Encoded::Parcel(parcel),
        None => Encoded::Word(0),
    }
}

/// An instruction with an open field in a word.
#[tactic(auto, using(crate::proofs::EncodingLemmas::open_word))]
fn as_word(inst: Inst, kind: Kind) -> Encoded
    requires codable { IsCodable (Open kind inst) }
    requires whole { laws.is_short kind ≡ false }
    ensures is { (compressed : Bool)
        → IsCodedPart None compressed (Open kind inst) (encoded_bytes result) }
    ensures one { encoded_instructions result ≡ 1 }
{
    Encoded::Word(encode(inst))
}

/// Whether a field is one of a parcel.
fn is_short(kind: &Kind) -> bool
    ensures { result ≡ laws.is_short kind.now }
{
    matches!(kind, Kind::RvcBranch | Kind::RvcJump)
}

/// An instruction with an open field, in the form of the field's kind.
fn in_open_form(inst: Inst, kind: Kind) -> Encoded
    requires { IsCodable (Open kind inst) }
    ensures is { (compressed : Bool)
        → IsCodedPart None compressed (Open kind inst) (encoded_bytes result) }
    ensures one { encoded_instructions result ≡ 1 }
{
    if is_short(&kind) {
        as_parcel(inst, kind)
    } else {
        as_word(inst, kind)
    }
}

/// An instruction as a part of its own.
fn in_form(inst: Inst, reloc: Option<Kind>, compressed: bool) -> Encoded
    requires { IsCodable (part_by inst reloc) }
    ensures is { IsCodedPart None compressed (part_by inst reloc) (encoded_bytes result) }
    ensures one { encoded_instructions result ≡ 1 }
{
    match reloc {
        None => in_least_form(inst, compressed),
        Some(kind) => in_open_form(inst, kind),
    }
}

// ---- all parts

/// A part that leaves no field open, by itself.
pub(crate) fn one_part(encoded: Encoded) -> Code
    ensures { result.items ≡ (laws.alone_coded encoded).items }
{
    let mut code = ArrayVec::new();
    code.push(Coded {
        encoded,
        kind: None,
    });
    code
}

/// Whether no field is open.
fn is_closed(template: &Template) -> bool
    ensures { result ≡ laws.is_closed template.now }
{
    template.reloc.is_none()
}

/// Whether no field of all is open.
fn are_all_closed(templates: &[Template]) -> bool
    ensures { result ≡ laws.are_all_closed templates.now }
{
    templates.iter().all(|template| is_closed(template))
}

/// Whether instructions may be compressed: where compressed code is on and no field is open.
fn may_compress(templates: &[Template], compressed: bool) -> bool
    ensures { result ≡ (compressed && laws.are_all_closed templates.now) }
{
    compressed && are_all_closed(templates)
}

/// Whether instructions are a call: the relocation of one stands at the first.
fn is_pair(templates: &[Template]) -> bool
    ensures { result ≡ laws.is_pair templates.now }
{
    match templates {
        [first, _] => matches!(first.reloc, Some(Kind::CallPlt)),
        _ => false,
    }
}

/// Instructions whose fields are filled each by itself.
fn encode_each(templates: &[Template], compressed: bool) -> Code
    requires codable { laws.AreCodableEach templates.now }
    requires few { length templates.now ≤ 8 }
    ensures parts { AreCodedParts None compressed (map part_of templates.now)
        (coded_by result.items) }
    ensures shapes { map shape_in result.items ≡ map (λ t. shape_of (part_of t)) templates.now }
    ensures few { length result.items ≤ 8 }
{
    let mut code = ArrayVec::new();
    for template in templates {
        let encoded = in_form(template.inst, template.reloc, compressed);
        code.push(Coded {
            encoded,
            kind: template.reloc,
        });
    }
    code
}

/// Two instructions whose fields are filled as one.
fn encode_pair(first: Inst, second: Inst) -> Code
    requires { IsCodable (laws.call_of first second) }
    ensures parts { (compressed : Bool)
        → AreCodedParts None compressed (laws.call_of first second ∷ []) (coded_by result.items) }
    ensures shapes { map shape_in result.items ≡ shape_of (laws.call_of first second) ∷ [] }
    ensures few { length result.items ≤ 8 }
{
    let mut code = ArrayVec::new();
    code.push(Coded {
        encoded: Encoded::Pair(encode(first), encode(second)),
        kind: Some(Kind::CallPlt),
    });
    code
}

/// The instructions of a statement, each in its least form where no field is open.
pub(crate) fn encode_all(templates: Templates, compressed: bool) -> Code
    requires { AreCodable templates.items }
    ensures parts { AreCodedParts None (compressed && are_closed (parts_in templates.items))
        (parts_in templates.items) (coded_by result.items) }
    ensures shapes { map shape_in result.items ≡ map shape_of (parts_in templates.items) }
    ensures few { length result.items ≤ 8 }
{
    let all = templates.as_slice();
    if is_pair(all) {
        return encode_pair(all[0].inst, all[1].inst);
    }
    encode_each(all, may_compress(all, compressed))
}
