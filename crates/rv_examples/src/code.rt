//! Worked code, as contracts that the check computes.

ghost use Rattle.std.specs.Prelude.{true, false};
ghost use Rattle.rv_isa.specs.declared.operation.ImmediateOperation.TheVariants.{Addi};
ghost use Rattle.rv_parcel.specs.declared.parcel.ParcelOperation.TheVariants as parcels;
ghost use Rattle.rv_statement_laws.specs.declared.mnemonic.Mnemonic.TheVariants.{Immediate, Li, Call, La, ZeroBranch, Parcel};
ghost use Rattle.rv_statement_laws.specs.declared.pseudo.ZeroBranchOperation.TheVariants.{Beqz};
ghost use Rattle.rv_assemble_laws.specs.Coded.{IsCode};
ghost use Rattle.rv_examples.specs.KnownCode.{without_names, own, number_operands, adds_word, adds_parcel, loads_words, loads_both};
ghost use Rattle.rv_examples.specs.Refused.{jumps};
ghost use Rattle.rv_examples.specs.BranchSizes.{beyond, beqz_a0, IsLeastSize};
ghost use Rattle.rv_examples.specs.Parcels.{sp_16, own_step, steps_named, steps_chosen};
ghost use Rattle.rv_examples.specs.OpenCode.{with_symbols, to_x, own_to_x, calls_x, loads_x, branches_short, branches_word, branches_over};

/// `addi a0, a0, 5` is a word, and a parcel where compressed code is on.
pub fn code_is_least()
    ensures word { IsCode without_names false (Immediate Addi) (own 5) 4 adds_word 1 }
    ensures parcel { IsCode without_names true (Immediate Addi) (own 5) 2 adds_parcel 1 }
{}

/// `li a0, 2048` is two instructions: two words, and a parcel and a word where compressed code is on.
pub fn long_constants_are_two()
    ensures words { IsCode without_names false Li (number_operands 2048) 8 loads_words 2 }
    ensures both { IsCode without_names true Li (number_operands 2048) 6 loads_both 2 }
{}

/// `call x` is one part of two words, and `la a0, x` two parts of a word each, with compressed code
/// on or off.
pub fn symbols_take_words()
    ensures call { IsCode with_symbols false Call to_x 8 calls_x 2 }
    ensures compressed_call { IsCode with_symbols true Call to_x 8 calls_x 2 }
    ensures address { IsCode with_symbols false La own_to_x 8 loads_x 2 }
    ensures compressed_address { IsCode with_symbols true La own_to_x 8 loads_x 2 }
{}

/// `beqz a0, x` in each of its sizes: a parcel, a word, and the inverted branch over a jump.
pub fn branches_have_three_sizes()
    ensures parcel { IsCode with_symbols true (ZeroBranch Beqz) own_to_x 2 branches_short 1 }
    ensures word { IsCode with_symbols false (ZeroBranch Beqz) own_to_x 4 branches_word 1 }
    ensures compressed_word { IsCode with_symbols true (ZeroBranch Beqz) own_to_x 4
        branches_word 1 }
    ensures over { IsCode with_symbols true (ZeroBranch Beqz) own_to_x 8 branches_over 2 }
{}

/// A `c.` statement is the parcel that it names, with compressed code on or off, and also where another one is chosen for
/// its instruction.
pub fn parcels_are_named()
    ensures adds { IsCode without_names false (Parcel parcels.Addi) (number_operands 5) 2 adds_parcel 1 }
    ensures compressed { IsCode without_names true (Parcel parcels.Addi) (number_operands 5) 2
        adds_parcel 1 }
    ensures steps { IsCode without_names true (Parcel parcels.Addi16sp) sp_16 2 steps_named 1 }
    ensures chosen { IsCode without_names true (Immediate Addi) own_step 2 steps_chosen 1 }
    ensures branch { IsCode with_symbols false (Parcel parcels.Beqz) own_to_x 2 branches_short 1 }
{}

/// A jump reaches less than 2048 bytes in 2, and takes 4 from there on.
pub fn jumps_are_least()
    ensures near { IsLeastSize (jumps (beyond 2046)) 2 }
    ensures far { IsLeastSize (jumps (beyond 2048)) 4 }
{}

/// A branch that has a parcel reaches less than 256 bytes in 2 and less than 4096 in 4, and takes 8
/// from there on.
pub fn branches_are_least()
    ensures near { IsLeastSize (beqz_a0 (beyond 254)) 2 }
    ensures word { IsLeastSize (beqz_a0 (beyond 256)) 4 }
    ensures far { IsLeastSize (beqz_a0 (beyond 4096)) 8 }
{}
