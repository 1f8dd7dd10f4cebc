//! Worked lines. The words are those of GNU's assembler, objdump shows them.

ghost use Rattle.std.specs.Prelude.{◌≡◌, Some, codes};
ghost use Rattle.rv_isa_laws.specs.Hart.{Exited, StoreText, Illegal, FetchOutside};
ghost use Rattle.rv_isa_laws.specs.Run.{NoRight, NoInstruction};
ghost use Rattle.rv_event_text_laws.specs.EventLine.{event_line};
ghost use Rattle.rv_event_text_laws.specs.Worked.{at, li, lw, lw_zero, sw, amoadd, failed_sc, takes_hi, puts_hi, ends};

/// Steps that set a register, load, store, or do both. An sc that failed shows no store.
#[tactic(auto, unfolding(crate::specs::EventLine::hex_digits))]
pub fn worked_steps()
    ensures li { event_line li ≡ codes "0000000000010000 2 00500513 x10 <- 0000000000000005\n" }
    ensures lw { event_line lw
        ≡ codes "0000000000010004 4 00452503 [0000000000011004] -> 00000007 x10 <- 0000000000000007\n" }
    ensures lw_zero { event_line lw_zero
        ≡ codes "0000000000010008 4 00052003 [0000000000011000] -> ffffffff\n" }
    ensures sw { event_line sw
        ≡ codes "000000000001000c 4 00a5a023 [000000003ffffff0] <- 00000007\n" }
    ensures amoadd { event_line amoadd
        ≡ codes "0000000000010010 4 00b6352f [0000000000011008] -> 0000000000000028 x10 <- 0000000000000028 [0000000000011008] <- 000000000000002a\n" }
    ensures failed_sc { event_line failed_sc
        ≡ codes "0000000000010014 4 18b6252f x10 <- 0000000000000001\n" }
{}

/// Calls that move bytes.
#[tactic(auto, unfolding(crate::specs::EventLine::hex_digits))]
pub fn worked_calls()
    ensures takes { event_line takes_hi
        ≡ codes "0000000000010018 4 00000073 x10 <- 0000000000000002 input 6869\n" }
    ensures puts { event_line puts_hi
        ≡ codes "0000000000010018 4 00000073 x10 <- 0000000000000002 output 6869\n" }
{}

/// Steps by which a run ends.
#[tactic(auto, unfolding(crate::specs::EventLine::hex_digits))]
pub fn worked_ends()
    ensures exited { event_line (ends (Exited 7))
        ≡ codes "0000000000010018 4 00000073 end Exited 07\n" }
    ensures outside { event_line (record (at 8 NoRight) { «end» = Some (FetchOutside 8) })
        ≡ codes "0000000000000008 no right end FetchOutside 0000000000000008\n" }
    ensures illegal { event_line (record (at 0x10002 NoInstruction) { «end» = Some (Illegal 0x10002) })
        ≡ codes "0000000000010002 no instruction end Illegal 0000000000010002\n" }
{}
