//! The transactions of a recording of packets.
ghost use Rattle.std.specs.Prelude.{◌≡◌, ◌++◌, ◌∷◌, [], None, false, List, IfOk, OnErr};
ghost use Rattle.std.specs.Option.{option_map, option_to_list};
ghost use Rattle.usb_capture.specs.declared.recorded_packet.RecordedPacket.{RecordedPacket};
ghost use Rattle.usb_capture.specs.declared.transaction.Transaction.{Transaction};
ghost use Rattle.usb_capture.specs.Transactions.{HasReceived, after_data, after_token, broken_off, bus_after, bus_of, ended_by, over_with, over_with_data};

use crate::bus_packet::PacketFault;
use crate::recorded_packet::RecordedPacket;
use crate::transaction::Transaction;
use std::alloc::{AllocError, Global};
use usb_wire::{AddressFields, DataKind, Handshake, Packet, TokenKind};

/// Makes of packets, taken in order, the transactions with endpoint zero of all devices.
///
/// It holds one transaction. Those with other endpoints are counted. Split transactions (USB 2.0, 8.4.2) are passed over.
#[derive(Debug, Drop)]
pub struct BusTransactions {
    alloc: Global,
    current: Option<Transaction>,
    is_split: bool,
    others: u64,
}

impl BusTransactions {
    /// One that has taken no packet.
    pub fn new(alloc: Global) -> BusTransactions
        ensures { HasReceived [] [] result }
    {
        BusTransactions {
            alloc,
            current: None,
            is_split: false,
            others: 0,
        }
    }

    /// Takes a packet, or why a frame is none, and gives the transaction that is over with it: one whose handshake it is, or
    /// one after which something else came.
    ///
    /// # Errors
    ///
    /// Out of memory; the transaction is then forgotten.
    pub fn take(&mut self, recorded: &RecordedPacket<'_>) -> Result<Option<Transaction>, AllocError>
        ensures ok { IfOk result (λ over. (packets : List RecordedPacket) (transactions : List Transaction) → HasReceived packets transactions self.old
            → HasReceived (packets ++ recorded.now ∷ []) (transactions ++ option_to_list over) self.new) }
        ensures err { OnErr result (bus_of self.new ≡ record (bus_of self.old) { current = None }) }
    {
        self.step(recorded)
    }

    /// The transaction whose end hasn't come, when the recording is at its end.
    pub fn finish(self) -> Option<Transaction>
        ensures { result ≡ self.current }
    {
        self.current
    }

    /// How many tokens there were to other endpoints than endpoint zero.
    pub fn others(&self) -> u64
        ensures { result ≡ self.now.others }
    {
        self.others
    }

    /// The same as [`BusTransactions::take`], by what is open.
    fn step(&mut self, recorded: &RecordedPacket<'_>) -> Result<Option<Transaction>, AllocError>
        ensures bus { IfOk result (λ over. bus_of self.new ≡ bus_after recorded.now (bus_of self.old)) }
        ensures over { IfOk result (λ over. over ≡ over_with recorded.now (bus_of self.old)) }
        ensures err { OnErr result (bus_of self.new ≡ record (bus_of self.old) { current = None }) }
    {
        match recorded.packet {
            Ok(Packet::Token(token, to)) => Ok(self.begin(recorded, token, to)),
            Ok(Packet::Data(kind, bytes)) => self.put_data(kind, bytes),
            Ok(Packet::Handshake(handshake)) => Ok(self.end(handshake)),
            Ok(Packet::Split(_)) => Ok(self.break_off(true)),
            Ok(Packet::StartOfFrame(_)) | Err(PacketFault::Cut | PacketFault::Damaged(_)) => {
                Ok(self.break_off(false))
            }
            Ok(Packet::Pre) | Err(PacketFault::Link) => Ok(None),
        }
    }

    /// Takes a token, with which the transaction before it is over.
    fn begin(
        &mut self,
        recorded: &RecordedPacket<'_>,
        token: TokenKind,
        to: AddressFields,
    ) -> Option<Transaction>
        ensures bus { bus_of self.new ≡ after_token recorded.now token to (bus_of self.old) }
        ensures over { result ≡ self.old.current }
    {
        let is_split = self.is_split;
        let over = self.break_off(false);
        match (is_split, to.endpoint) {
            (true, _) => {}
            (false, 0) => self.current = Some(Transaction::begin(recorded, token, to)),
            (false, _) => self.others = self.others.saturating_add(1),
        }
        over
    }

    /// Takes data. Those that no token was waiting for are of no transaction.
    fn put_data(&mut self, kind: DataKind, bytes: &[u8]) -> Result<Option<Transaction>, AllocError>
        ensures bus { IfOk result (λ over. bus_of self.new ≡ after_data kind bytes.now (bus_of self.old)) }
        ensures over { IfOk result (λ over. over ≡ over_with_data self.old.current) }
        ensures err { OnErr result (bus_of self.new ≡ record (bus_of self.old) { current = None }) }
    {
        match self.current.take() {
            Some(transaction) if transaction.awaits_data() => {
                self.current = Some(transaction.put_data(self.alloc, kind, bytes)?);
                Ok(None)
            }
            over => Ok(over),
        }
    }

    /// Takes a handshake, with which a transaction is over.
    fn end(&mut self, handshake: Handshake) -> Option<Transaction>
        ensures bus { bus_of self.new ≡ broken_off false (bus_of self.old) }
        ensures over { result ≡ option_map (ended_by handshake) self.old.current }
    {
        let over = self.break_off(false)?;
        Some(over.end(handshake))
    }

    /// Waits for the next token: of a split transaction, or of another one.
    fn break_off(&mut self, is_split: bool) -> Option<Transaction>
        ensures bus { bus_of self.new ≡ broken_off is_split (bus_of self.old) }
        ensures over { result ≡ self.old.current }
    {
        self.is_split = is_split;
        self.current.take()
    }
}
