//! Worked sources that are refused, as contracts that the check computes.

ghost use Rattle.std.specs.Prelude.{◌≡◌, [], ◌∷◌, None, false, codes};
ghost use Rattle.rv_expression_laws.specs.Codes.{immediate_range, not_constant, division_by_zero, duplicate_label, scratch_register, undefined_local, wrong_section};
ghost use Rattle.rv_expression_laws.specs.declared.operator.BinaryOperator.TheVariants.{Divide};
ghost use Rattle.rv_expression_laws.specs.Expression.{Leaf, Binary, Reference};
ghost use Rattle.rv_parcel.specs.declared.parcel.ParcelOperation.TheVariants.{Addi, Lui, Slli};
ghost use Rattle.rv_statement_laws.specs.declared.pseudo.Function.TheVariants.{Lo, PcrelLo};
ghost use Rattle.rv_statement_laws.specs.Statement.{Directs, Values, Emits};
ghost use Rattle.rv_examples.specs.Exit7.{exit7, load, constant};
ghost use Rattle.rv_examples.specs.Data.{hello, figures, differences, symbol};
ghost use Rattle.rv_examples.specs.Refused.{fault, lone, adds, minus, shifts, shifts_word, ands, uppers, loads, x, away, jumps, moves, extends, loads_address, loads_symbol, stores_symbol, calls, jumps_by, adds_part, shifts_part, li_part, upper_part, upper_distance, jumps_back, after_set, before_set, before_label, after_location, compressed, after_padding, padding_without_bytes, options, two_faults, directive_later};
ghost use Rattle.rv_examples.specs.Parcels.{parcel, parcel_of_part, loads_short, jumps_short, parcel7};
ghost use Rattle.rv_assemble_laws.specs.Refusals.{statements_fault};

/// The worked programs have no fault, in compressed code or not.
pub fn worked_are_sound()
    ensures exit7 { statements_fault exit7 ≡ None }
    ensures hello { statements_fault hello ≡ None }
    ensures differences { statements_fault differences ≡ None }
    ensures figures { statements_fault figures ≡ None }
{}

/// The ends of the ranges of instructions' numbers.
pub fn ranges_end()
    ensures low { statements_fault (lone (adds (minus 2048))) ≡ None }
    ensures below { statements_fault (lone (adds (minus 2049))) ≡ fault immediate_range 2 }
    ensures high { statements_fault (lone (ands (constant 2047))) ≡ None }
    ensures above { statements_fault (lone (ands (constant 2048))) ≡ fault immediate_range 2 }
    ensures offset { statements_fault (lone (loads (constant 2048))) ≡ fault immediate_range 2 }
{}

/// Those of shifts and of upper parts.
pub fn other_ranges_end()
    ensures shift { statements_fault (lone (shifts 63)) ≡ None }
    ensures far { statements_fault (lone (shifts 64)) ≡ fault immediate_range 2 }
    ensures word { statements_fault (lone (shifts_word 31)) ≡ None }
    ensures far_word { statements_fault (lone (shifts_word 32)) ≡ fault immediate_range 2 }
    ensures upper { statements_fault (lone (uppers (constant 1048575))) ≡ None }
    ensures far_upper { statements_fault (lone (uppers (constant 1048576)))
        ≡ fault immediate_range 2 }
    ensures negative { statements_fault (lone (uppers (minus 1))) ≡ fault immediate_range 2 }
{}

/// A symbol is no constant; of several faulty statements the first counts, and labels and directives
/// come first.
pub fn first_ones_count()
    ensures symbol { statements_fault (lone (adds (symbol (codes "x")))) ≡ fault not_constant 2 }
    ensures two { statements_fault two_faults ≡ fault division_by_zero 2 }
    ensures later { statements_fault directive_later ≡ fault duplicate_label 4 }
{}

/// A register on the way to a symbol is not x0, and a store needs its own; `la` may have x0.
pub fn scratch_registers_are_used()
    ensures load { statements_fault (lone (loads_symbol 0 x)) ≡ fault scratch_register 2 }
    ensures store { statements_fault (lone (stores_symbol 0 x)) ≡ fault scratch_register 2 }
    ensures same { statements_fault (lone (stores_symbol 10 x)) ≡ fault scratch_register 2 }
    ensures call { statements_fault (lone (calls 0 x)) ≡ fault scratch_register 2 }
    ensures jump { statements_fault (lone (jumps_by 0 x)) ≡ fault scratch_register 2 }
    ensures address { statements_fault (lone (loads_address 0 x)) ≡ None }
    ensures other { statements_fault (lone (stores_symbol 5 x)) ≡ None }
    ensures beside { statements_fault (lone (loads_symbol 0 away)) ≡ fault scratch_register 2 }
    ensures after { statements_fault (lone (calls 0 (Binary Divide x (constant 0))))
        ≡ fault division_by_zero 2 }
{}

/// A target is a symbol's address; a constant is none, nor is a distance.
pub fn targets_are_addresses()
    ensures label { statements_fault (before_label (jumps x)) ≡ None }
    ensures number { statements_fault (after_set (jumps x)) ≡ fault immediate_range 3 }
    ensures early { statements_fault (before_set (jumps x)) ≡ fault not_constant 2 }
    ensures distance { statements_fault (lone (jumps away)) ≡ fault not_constant 2 }
    ensures missing { statements_fault (lone (jumps (Leaf (Reference (codes "1") false))))
        ≡ fault undefined_local 2 }
    ensures upper { statements_fault (after_set (upper_distance x)) ≡ fault immediate_range 3 }
{}

/// An upper part has 20 bits, from -2048 to 2^32 - 2049.
pub fn upper_parts_end()
    ensures low { statements_fault (lone (upper_part (minus 2048))) ≡ None }
    ensures below { statements_fault (lone (upper_part (minus 2049))) ≡ fault immediate_range 2 }
    ensures high { statements_fault (lone (upper_part (constant 0xfffff7ff))) ≡ None }
    ensures above { statements_fault (lone (upper_part (constant 0xfffff800)))
        ≡ fault immediate_range 2 }
    ensures symbol { statements_fault (lone (upper_part x)) ≡ None }
    ensures distance { statements_fault (lone (upper_part away)) ≡ fault not_constant 2 }
{}

/// The low part of an address is a number of 12 bits, and neither a shift's nor `li`'s.
pub fn low_parts_fit()
    ensures symbol { statements_fault (lone (adds_part Lo x)) ≡ None }
    ensures distance { statements_fault (lone (adds_part Lo away)) ≡ fault not_constant 2 }
    ensures number { statements_fault (lone (adds_part Lo (constant 5000))) ≡ None }
    ensures shift { statements_fault (lone (shifts_part Lo x)) ≡ fault not_constant 2 }
    ensures li { statements_fault (lone (li_part Lo x)) ≡ fault not_constant 2 }
    ensures amount { statements_fault (lone (shifts_part Lo (constant 4159))) ≡ None }
    ensures far { statements_fault (lone (shifts_part Lo (constant 4160)))
        ≡ fault immediate_range 2 }
    ensures negative { statements_fault (lone (shifts_part Lo (constant 4095)))
        ≡ fault immediate_range 2 }
{}

/// The low part of a distance names a label of the source.
pub fn distances_name_labels()
    ensures label { statements_fault (before_label (adds_part PcrelLo x)) ≡ None }
    ensures missing { statements_fault (lone (adds_part PcrelLo x)) ≡ fault undefined_local 2 }
    ensures constant { statements_fault (after_set (adds_part PcrelLo x))
        ≡ fault undefined_local 3 }
    ensures early { statements_fault (before_set (adds_part PcrelLo x)) ≡ fault undefined_local 2 }
    ensures location { statements_fault (after_location (adds_part PcrelLo x))
        ≡ fault undefined_local 5 }
    ensures shift { statements_fault (before_label (shifts_part PcrelLo x)) ≡ fault not_constant 2 }
    ensures both { statements_fault (lone (shifts_part PcrelLo x)) ≡ fault undefined_local 2 }
{}

/// Code whose operands are known has a place, in compressed code too, where its numbers are in range.
pub fn known_code_is_sound()
    ensures compressed { statements_fault (compressed (adds (constant 5))) ≡ None }
    ensures range { statements_fault (compressed (adds (constant 5000))) ≡ fault immediate_range 1 }
    ensures options { statements_fault options ≡ None }
    ensures long { statements_fault (lone (load 10 2048)) ≡ None }
    ensures longest { statements_fault (compressed (load 10 0x123456789abcdef0)) ≡ None }
    ensures moves { statements_fault (compressed (moves 10 11)) ≡ None }
    ensures extends { statements_fault (lone (extends 10 11)) ≡ None }
    ensures offset { statements_fault (lone (jumps_back 2047)) ≡ None }
    ensures far { statements_fault (lone (jumps_back 2048)) ≡ fault immediate_range 2 }
{}

/// A `c.` statement has the numbers of its parcel, none of which makes it a hint, and no open one.
pub fn parcels_end()
    ensures worked { statements_fault parcel7 ≡ None }
    ensures high { statements_fault (lone (parcel Addi (constant 31))) ≡ None }
    ensures above { statements_fault (compressed (parcel Addi (constant 32)))
        ≡ fault immediate_range 1 }
    ensures low { statements_fault (lone (parcel Addi (minus 32))) ≡ None }
    ensures hint { statements_fault (lone (parcel Addi (constant 0))) ≡ fault immediate_range 2 }
    ensures shift { statements_fault (lone (parcel Slli (constant 64))) ≡ fault immediate_range 2 }
    ensures upper { statements_fault (lone (parcel Lui (constant 0xfffe0))) ≡ None }
    ensures between { statements_fault (lone (parcel Lui (constant 32)))
        ≡ fault immediate_range 2 }
    ensures offset { statements_fault (lone (loads_short 124)) ≡ None }
    ensures odd { statements_fault (lone (loads_short 126)) ≡ fault immediate_range 2 }
    ensures symbol { statements_fault (lone (parcel Addi x)) ≡ fault not_constant 2 }
    ensures part { statements_fault (lone (parcel_of_part Addi Lo (constant 4097))) ≡ None }
    ensures open_part { statements_fault (lone (parcel_of_part Addi Lo x))
        ≡ fault not_constant 2 }
    ensures label { statements_fault (before_label (jumps_short x)) ≡ None }
    ensures number { statements_fault (after_set (jumps_short x)) ≡ fault immediate_range 3 }
{}

/// An operand that is a symbol is open, and its code has a place, in compressed code too; a distance
/// is no symbol.
pub fn open_code_is_sound()
    ensures symbol { statements_fault (lone (loads_symbol 10 x)) ≡ None }
    ensures compressed { statements_fault (compressed (jumps x)) ≡ None }
    ensures call { statements_fault (lone (calls 1 x)) ≡ None }
    ensures jump { statements_fault (compressed (jumps_by 5 x)) ≡ None }
    ensures address { statements_fault (compressed (loads_address 10 x)) ≡ None }
    ensures upper { statements_fault (lone (upper_distance x)) ≡ None }
    ensures other { statements_fault (lone (loads_symbol 10 away)) ≡ fault not_constant 2 }
{}

/// An alignment in code has no fault as code: what follows it may have one. In a section without bytes it is a
/// wrong directive.
pub fn padding_is_code()
    ensures first { statements_fault (after_padding (adds (constant 5000)))
        ≡ fault immediate_range 3 }
    ensures before { statements_fault (after_padding (Directs (Emits (Values 4 (constant 1 ∷ [])))))
        ≡ fault wrong_section 3 }
    ensures without { statements_fault padding_without_bytes ≡ fault wrong_section 2 }
{}
