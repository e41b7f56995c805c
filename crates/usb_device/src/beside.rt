//! Which requests a device's owner may answer, how long an answer may be, and why one is not taken.
ghost use Rattle.std.specs.Prelude.{◌≡◌};
ghost use Rattle.usb_device.specs.Beside.{is_open, is_other_descriptor};
ghost use Rattle.std.specs.Prelude.{◌≡◌, Some};

use std::{error, fmt};
use usb_fields::{Class, Direction, Recipient, Setup, request};

/// The most bytes that a device keeps: of an answer, [`Device::answer_with`](crate::Device::answer_with), or of a write,
/// [`Device::written`](crate::Device::written).
pub const ROOM: usize = 512;

/// Whether a device's owner may answer the request, where the device rejects it: class and vendor requests, and
/// GET_DESCRIPTOR of what isn't in the descriptor file. That is any descriptor of an interface or endpoint, and of
/// the device any but those of types 1, 2, 6 and 7, so that a device without a second speed stays one. A GET_DESCRIPTOR
/// with data to the device is not open.
///
/// ```rust
/// // GET_DESCRIPTOR of the report descriptor of interface 0.
/// assert!(rt; is_open(Setup::from_bytes(&[0x81, 6, 0, 0x22, 0, 0, 52, 0])));
/// // GET_DESCRIPTOR of the qualifier, and one with data to the device.
/// assert!(rt; !is_open(Setup::from_bytes(&[0x80, 6, 0, 6, 0, 0, 10, 0])));
/// assert!(rt; !is_open(Setup::from_bytes(&[0x01, 6, 0, 0x22, 0, 0, 8, 0])));
/// ```
pub fn is_open(q: Setup) -> bool
    ensures { result ≡ is_open q }
{
    match q.class() {
        Class::Standard => is_other_descriptor(q),
        Class::Class | Class::Vendor => true,
        Class::Reserved => false,
    }
}

fn is_other_descriptor(q: Setup) -> bool
    ensures { result ≡ is_other_descriptor q }
{
    q.request == request::GET_DESCRIPTOR
        && (q.length == 0 || q.direction() == Direction::In)
        && match q.recipient() {
            Recipient::Device => !matches!(q.value / 256, 1 | 2 | 6 | 7),
            Recipient::Interface | Recipient::Endpoint => true,
            Recipient::Other | Recipient::Reserved => false,
        }
}

/// Why an answer is not taken: the first of these that applies. Its `Display` is a message for people.
///
/// ```rust
/// // A new device has rejected nothing.
/// let mut device = Device::new(&description);
/// assert_eq!(rt; device.accept(), Err(Unanswered::Nothing));
/// ```
#[derive(Clone, Copy, Debug, PartialEq, Eq, Hash)]
pub enum Unanswered {
    /// No request is rejected, or the host knows of it.
    Nothing,
    /// The request is not open to an owner's answer: [`is_open`](crate::is_open).
    Closed,
    /// Bytes for a request that asks for none from the device, or no bytes for one that asks for some.
    Shape,
    /// The bytes, cut to wLength, or the data of a write are more than [`ROOM`](crate::ROOM).
    Room,
}

impl Unanswered {
    ghost use Rattle.usb_device.specs.Accepted.{unanswered_number};

    /// The fault's number, 1 to 4: a lower one is tested first.
    pub fn number(self) -> u8
        ensures { result ≡ unanswered_number self }
    {
        self as u8 + 1
    }
}

impl fmt::Display for Unanswered {
    ghost use Rattle.usb_device.specs.Accepted.{unanswered_message};

    ghost output = { λ fault. Some (unanswered_message fault) };

    fn fmt<W: fmt::Write>(&self, f: &mut fmt::Formatter<W>) -> fmt::Result {
        match self {
            Unanswered::Nothing => f.write_str("no request waits for an answer"),
            Unanswered::Closed => f.write_str("the request is the device's own"),
            Unanswered::Shape => f.write_str("the request asks for no such data stage"),
            Unanswered::Room => f.write_str("more bytes than the device keeps"),
        }
    }
}

impl error::Error for Unanswered {}
