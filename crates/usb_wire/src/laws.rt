//! What holds of packets and of the checks in them. The functions of these laws do nothing: their contracts are the laws.
ghost use Rattle.std.specs.Prelude.{◌≡◌, ◌<◌, ◌≤◌, ◌+◌, ◌%◌, ◌∷◌, [], ℕ, List, Bool, None, Some, IsSome, length};
ghost use Rattle.usb_wire.specs.declared.pid.DataKind.{DataKind};
ghost use Rattle.usb_wire.specs.declared.pid.TokenKind.{TokenKind};
ghost use Rattle.usb_wire.specs.declared.pid.Handshake.{Handshake};
ghost use Rattle.usb_wire.specs.declared.pid.Pid.{Pid};
ghost use Rattle.usb_wire.specs.declared.damage.Damage.{Damage};
ghost use Rattle.usb_wire.specs.Crc.{bits, data_register, data_residual, token_register, token_residual};
ghost use Rattle.usb_wire.specs.Packets.{AreBytes, IsByte, IsLegal, PacketView, data_field, packet_bytes, pid_byte, split_field, token_field};
ghost use Rattle.usb_wire.specs.Damages.{damage_of};
ghost use Rattle.usb_wire.specs.Standard.{mirrored, standard_register};
ghost use Rattle.usb_wire.specs.Changes.{AreFew, IsBurst, IsSlightlyDamaged, changed};

/// A packet that was written is read as itself.
pub fn written_packets_are_read()
    ensures read { (p : PacketView) → IsLegal p → damage_of (packet_bytes p) ≡ None }
    ensures itself { (p q : PacketView) → IsLegal p → IsLegal q → packet_bytes p ≡ packet_bytes q → p ≡ q }
{}

/// The registers are those of the standard, in the other order of bits: its polynomials are given here without their highest
/// power, and its residuals as it prints them.
pub fn registers_are_the_standards()
    ensures tokens { (u : List Bool) → token_register u ≡ mirrored 5 (standard_register 4 0x05 0x1f u) }
    ensures data { (u : List Bool) → data_register u ≡ mirrored 16 (standard_register 15 0x8005 0xffff u) }
    // 01100 and 1000000000001101
    ensures token_residual { token_residual ≡ mirrored 5 0x0c }
    ensures data_residual { data_residual ≡ mirrored 16 0x800d }
{}

/// Bits with their CRC leave the residual.
#[tactic(auto, using(crate::proofs::Fields::token_field_is, crate::proofs::Fields::split_field_is, crate::proofs::Fields::data_field_is))]
pub fn residuals_are_left()
    ensures token { (n : ℕ) → n < 2048 → token_register (bits (token_field n)) ≡ token_residual }
    ensures split { (n : ℕ) → n < 524288 → token_register (bits (split_field n)) ≡ token_residual }
    ensures data { (b : List ℕ) → data_register (bits (data_field b)) ≡ data_residual }
{}

/// What the 16-bit CRC always finds in data and their CRC: one, two and three changed bits, any odd number of them, and
/// any that lie among 16 in a row.
pub fn damaged_data_are_found()
    ensures few { (kind : DataKind) (b body : List ℕ) → length b ≤ 1024 → length body ≡ length b + 2
        → AreFew 3 (data_field b) body → damage_of (pid_byte (Pid.Data kind) ∷ body) ≡ Some Damage.Crc16 }
    ensures odd { (kind : DataKind) (b body : List ℕ) → length b ≤ 1024 → length body ≡ length b + 2
        → changed (data_field b) body % 2 ≡ 1 → damage_of (pid_byte (Pid.Data kind) ∷ body) ≡ Some Damage.Crc16 }
    ensures burst { (kind : DataKind) (b body : List ℕ) → length b ≤ 1024 → length body ≡ length b + 2
        → IsBurst 16 (data_field b) body → damage_of (pid_byte (Pid.Data kind) ∷ body) ≡ Some Damage.Crc16 }
{}

/// What the 5-bit CRC always finds in a token, a start of frame and a SPLIT, their CRC included: one and two changed bits.
pub fn damaged_tokens_are_found()
    ensures token { (kind : TokenKind) (n : ℕ) (body : List ℕ) → n < 2048 → length body ≡ 2
        → AreFew 2 (token_field n) body → damage_of (pid_byte (Pid.Token kind) ∷ body) ≡ Some Damage.Crc5 }
    ensures frame { (n : ℕ) (body : List ℕ) → n < 2048 → length body ≡ 2
        → AreFew 2 (token_field n) body → damage_of (pid_byte Pid.StartOfFrame ∷ body) ≡ Some Damage.Crc5 }
    ensures split { (n : ℕ) (body : List ℕ) → n < 524288 → length body ≡ 3
        → AreFew 2 (split_field n) body → damage_of (pid_byte Pid.Split ∷ body) ≡ Some Damage.Crc5 }
{}

/// What the check bits of a PID always find: one changed bit, whatever follows.
pub fn damaged_pids_are_found()
    ensures { (pid : Pid) (head : ℕ) (body : List ℕ) → IsByte head → changed (pid_byte pid ∷ []) (head ∷ []) ≡ 1
        → damage_of (head ∷ body) ≡ Some Damage.Pid }
{}

/// A slightly damaged packet is no packet, whichever it was.
pub fn slight_damage_is_found()
    ensures { (p : PacketView) (b : List ℕ) → IsLegal p → AreBytes b → IsSlightlyDamaged p b → IsSome (damage_of b) }
{}

/// What is not found: two changed bits of a PID, three of a token, four of data.
pub fn more_damage_is_missed()
    // Bits 3 and 7: an ACK is received as a NAK, DATA0 as DATA1, an OUT as an IN.
    ensures handshake { changed (pid_byte (Pid.Handshake Handshake.Ack) ∷ []) (pid_byte (Pid.Handshake Handshake.Nak) ∷ []) ≡ 2 }
    ensures toggle { changed (pid_byte (Pid.Data DataKind.Data0) ∷ []) (pid_byte (Pid.Data DataKind.Data1) ∷ []) ≡ 2 }
    ensures token { changed (pid_byte (Pid.Token TokenKind.Out) ∷ []) (pid_byte (Pid.Token TokenKind.In) ∷ []) ≡ 2 }
    // The address 0 is received as 3, with the CRC of 3.
    ensures fields { changed (token_field 0) (token_field 3) ≡ 3 }
    // The data 00 00 are received as 01 00, with the CRC of these.
    ensures data { changed (data_field (0 ∷ 0 ∷ [])) (data_field (1 ∷ 0 ∷ [])) ≡ 4 }
{}
