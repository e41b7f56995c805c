//! A transaction of the bus (USB 2.0, 8.5).
ghost use Rattle.std.specs.Prelude.{◌≡◌, IfOk};
ghost use Rattle.usb_capture.specs.Transactions.{awaits_data, begun, ended_by, with_data};

use crate::recorded_packet::RecordedPacket;
use std::alloc::{AllocError, Global};
use usb_fields::Sequence;
use usb_wire::{AddressFields, DataKind, Handshake, TokenKind};

/// The data packet of a transaction.
#[derive(Debug, Drop)]
pub struct DataPacket {
    /// Its PID.
    pub kind: DataKind,
    /// Its data, at most 1,024 bytes.
    pub bytes: Sequence<u8>,
}

/// A transaction: a token, with the data packet and the handshake that came after it.
#[derive(Debug, Drop)]
pub struct Transaction {
    /// The number of the token's frame.
    pub number: u64,
    /// When the token was captured, in nanoseconds.
    pub time: Option<u64>,
    /// What the token asks for.
    pub token: TokenKind,
    /// The device and the endpoint.
    pub to: AddressFields,
    /// Its data packet, if one came.
    pub data: Option<DataPacket>,
    /// Its handshake, if one came.
    pub handshake: Option<Handshake>,
}

impl Transaction {
    /// One of which the token has come.
    pub(crate) fn begin(
        recorded: &RecordedPacket<'_>,
        token: TokenKind,
        to: AddressFields,
    ) -> Transaction
        ensures { result ≡ begun recorded.now token to }
    {
        Transaction {
            number: recorded.number,
            time: recorded.time,
            token,
            to,
            data: None,
            handshake: None,
        }
    }

    /// Whether data may come next: none has come, and the token isn't PING, after which none comes (8.5.1).
    pub(crate) fn awaits_data(&self) -> bool
        ensures { result ≡ awaits_data self.now }
    {
        match (self.token, &self.data) {
            (TokenKind::Ping, _) | (_, Some(_)) => false,
            (TokenKind::Out | TokenKind::In | TokenKind::Setup, None) => true,
        }
    }

    /// The transaction after its data packet.
    pub(crate) fn put_data(
        self,
        alloc: Global,
        kind: DataKind,
        bytes: &[u8],
    ) -> Result<Transaction, AllocError>
        ensures { IfOk result (λ transaction. transaction ≡ with_data kind bytes.now self) }
    {
        let bytes = Sequence::from_vec(Vec::from_slice(alloc, bytes)?);
        let mut transaction = self;
        transaction.data = Some(DataPacket { kind, bytes });
        Ok(transaction)
    }

    /// The transaction after its handshake.
    pub(crate) fn end(self, handshake: Handshake) -> Transaction
        ensures { result ≡ ended_by handshake self }
    {
        let mut transaction = self;
        transaction.handshake = Some(handshake);
        transaction
    }
}
