//! That packets are read as they are sent. Nothing here runs.

ghost use Rattle.std.specs.Prelude.{◌≡◌, ◌≤◌, ℕ, List, [], ◌∷◌, length};
ghost use Rattle.rv_gdb_packets.specs.Packets.{packet, content_limit};
ghost use Rattle.rv_gdb_packets.specs.Reading.{Outside, Packet, messages};

/// The bytes of a packet say its content and nothing else, where that is not too long.
pub fn packets_are_read()
    ensures { (content : List ℕ) → length content ≤ content_limit →
        messages Outside (packet content) ≡ Packet content ∷ [] }
{}
