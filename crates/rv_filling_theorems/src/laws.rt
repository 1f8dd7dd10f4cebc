//! The laws: of one open field, of a call, of all parts of a statement, and of their sizes.

ghost use Rattle.std.specs.Prelude.{◌≡◌, ℕ, ℤ, Bool, true, false, List, length, map, flat_map, Option, Some};
ghost use Rattle.std.specs.List.{AllByRecursion};
ghost use Rattle.rv_isa.specs.declared.instruction.Inst.{Inst};
ghost use Rattle.rv_isa.specs.declared.kind.Kind.{Kind};
ghost use Rattle.rv_isa.specs.Kinds.{width_of};
ghost use Rattle.rv_isa.specs.Ranges.{IsValid};
ghost use Rattle.rv_isa.specs.Operations.{format_of};
ghost use Rattle.rv_reloc_laws.specs.Fields.{patched};
ghost use Rattle.rv_reloc_laws.specs.Operands.{with_value};
ghost use Rattle.rv_reloc_laws.specs.Ranges.{Takes};
ghost use Rattle.rv_parcel.specs.declared.form.Compressed.{Compressed};
ghost use Rattle.rv_parcel.specs.Encoded.{IsEncodedIn};
ghost use Rattle.rv_statement_laws.specs.declared.mnemonic.Mnemonic.{Mnemonic};
ghost use Rattle.rv_statement_laws.specs.Statement.{Operand};
ghost use Rattle.rv_pseudo_laws.specs.Code.{Part, Joined, Constants, named_form, code};
ghost use Rattle.rv_pseudo_laws.specs.Filled.{FieldValue, AreTaken, filled, is_closed, part_bytes};
ghost use Rattle.rv_pseudo_laws.specs.Valid.{IsOpen};
ghost use Rattle.rv_pseudo_laws.specs.Runs.{Sized, sum_of_bytes, instructions_of};
ghost use Rattle.rv_filling_theorems.specs.Parts.{fills_call_pair, AreFew, IsEncodedPart, IsCallPart, IsNamedPart, AreFillable, AreEncoded, patched_parts, sized_parts};

/// An instruction whose open field is patched with a value that it takes is the instruction with that value, in as many
/// bytes; so are both of a call.
pub fn open_fields_fill()
    ensures alone { (k : Kind) (v : ℤ) (i : Inst) (bytes : List ℕ) → IsOpen k i → Takes k v →
        IsEncodedIn i (width_of k) bytes →
        IsEncodedIn (with_value v i) (width_of k) (patched k v bytes) }
    ensures calls { (named : Option Compressed) (k : Kind) (v : ℤ) (i j : Inst) (bytes : List ℕ) →
        IsOpen k i → IsOpen k j → fills_call_pair k (format_of i) (format_of j) ≡ true → Takes k v →
        IsEncodedPart named (Joined k i j) bytes →
        IsEncodedPart named (Joined k (with_value v i) (with_value v j)) (patched k v bytes) }
{}

/// In the code of statements only calls have two instructions that are filled as one.
pub fn code_joins_calls()
    ensures { (v : Constants) (rvc : Bool) (bytes : ℕ) (mnemonic : Mnemonic)
        (operands : List Operand) (parts : List Part) →
        code v rvc bytes mnemonic operands ≡ Some parts → AllByRecursion IsCallPart parts }
{}

/// The code of a statement that names a parcel has no open field.
pub fn named_code_is_closed()
    ensures { (v : Constants) (rvc : Bool) (bytes : ℕ) (mnemonic : Mnemonic)
        (operands : List Operand) (parts : List Part) →
        code v rvc bytes mnemonic operands ≡ Some parts →
        AllByRecursion (IsNamedPart (named_form v mnemonic operands)) parts }
{}

/// Parts whose fields take what they are to: the patched bytes are as many, and those of the statement's instructions with
/// their operands, one after another, in the form of a parcel that is named, if one is.
pub fn parts_fill()
    ensures instructions { (named : Option Compressed) (value : FieldValue) (a : ℕ) (ps : List Part)
        (coded : List (List ℕ)) → AreFillable named ps coded →
        instructions_of (sized_parts value a ps coded) ≡ filled value a ps }
    ensures encoded { (named : Option Compressed) (value : FieldValue) (a : ℕ) (ps : List Part)
        (coded : List (List ℕ)) → AreFillable named ps coded → AreTaken value a ps →
        AreEncoded named (sized_parts value a ps coded)
        (flat_map (λ bytes. bytes) (patched_parts value a ps coded)) }
    ensures lengths { (named : Option Compressed) (value : FieldValue) (a : ℕ) (ps : List Part)
        (coded : List (List ℕ)) → AreFillable named ps coded →
        map length (patched_parts value a ps coded) ≡ map length coded }
    ensures valid { (named : Option Compressed) (value : FieldValue) (a : ℕ) (ps : List Part)
        (coded : List (List ℕ)) → AreFillable named ps coded → AreTaken value a ps →
        AllByRecursion IsValid (filled value a ps) }
{}

/// How many bytes there are: of instructions one after another, and of an open part as its relocation's kind says.
pub fn sizes_agree()
    ensures total { (named : Option Compressed) (ls : List Sized) (bytes : List ℕ) →
        AreEncoded named ls bytes → sum_of_bytes ls ≡ length bytes }
    ensures few { (named : Option Compressed) (ls : List Sized) (bytes : List ℕ) →
        AreEncoded named ls bytes → AreFew (length ls) (length bytes) }
    ensures parts { (named : Option Compressed) (p : Part) (bytes : List ℕ) →
        is_closed p ≡ false → IsCallPart p → IsEncodedPart named p bytes →
        length bytes ≡ part_bytes p }
{}
