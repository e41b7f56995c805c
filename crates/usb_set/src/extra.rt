//! The descriptors that belong to the one before them and own none: all that is known of each of their types.
ghost use Rattle.std.specs.Prelude.{◌≡◌, ◌≤◌, ◌+◌, [], IfOk, length};
ghost use Rattle.usb_fields.specs.Fields.{fields_bytes, widths};
ghost use Rattle.usb_set.specs.Descriptors.{association_fields, extra_of, raw_descriptor, typed_length};
ghost use Rattle.usb_set.specs.Faults.{least_length};
ghost use Rattle.usb_set.specs.Layout.{is_typed, is_typed_raw};

use crate::attachment::read_bytes;
use std::alloc::{AllocError, Global};
use usb_fields::Width::{self, One};
use usb_fields::{Sequence, descriptor_length, descriptor_type};

/// A descriptor that is kept as its type and bytes: a class or vendor descriptor, or one of a type that this
/// crate gives no meaning. In a set its type is none of 2, 4, 5, 7 and 11.
#[derive(Clone, Debug, Drop, PartialEq, Eq, Hash)]
pub struct Raw {
    /// bDescriptorType.
    pub kind: u8,
    /// The bytes after bLength and bDescriptorType, at most 253.
    pub body: Sequence<u8>,
}

/// An interface association descriptor: interfaces with consecutive numbers that make one function
/// (Interface Association Descriptor ECN to USB 2.0, 9.X.Y).
#[derive(Clone, Debug, Drop, PartialEq, Eq, Hash)]
pub struct Association {
    /// bFirstInterface, the number of the function's first interface.
    pub first: u8,
    /// bInterfaceCount, of the function's interfaces.
    pub count: u8,
    /// bFunctionClass.
    pub class: u8,
    /// bFunctionSubClass.
    pub subclass: u8,
    /// bFunctionProtocol.
    pub protocol: u8,
    /// iFunction, the index of a string descriptor, or 0.
    pub text: u8,
    /// The bytes after the eight that the standard defines, at most 247.
    pub tail: Sequence<u8>,
}

/// A descriptor that belongs to the configuration, the setting or the endpoint before it.
#[derive(Clone, Debug, Drop, PartialEq, Eq, Hash)]
pub enum Extra {
    /// One that is kept as its type and bytes.
    Raw(Raw),
    /// An interface association descriptor, type 11. It owns nothing.
    Association(Association),
}

/// Widths of the fields of an interface association descriptor (its ECN, 9.X.Y).
pub const ASSOCIATION_WIDTHS: [Width; 6] = [One; 6];

/// The widths that the code has of the fields of extras are those of the standard's.
pub fn widths_of_extras_are_the_standards()
    ensures association { ASSOCIATION_WIDTHS ≡ widths association_fields }
{}

/// Does one thing with the descriptor that an extra is, whichever it is. Each has `descriptor_type()`, `field_bytes()` and
/// `tail()`.
///
/// ```rust
/// let len = with_extra!(extra, item => 2 + item.field_bytes().len() + item.tail().len());
/// ```
#[macro_export]
macro_rules! with_extra {
    ($extra:expr, $item:ident => $work:expr) => {
        match $extra {
            $crate::Extra::Raw($item) => $work,
            $crate::Extra::Association($item) => $work,
        }
    };
}

/// The least bLength of a descriptor of this type, if a set gives the type a meaning.
#[inline]
pub(crate) fn typed_length(kind: u8) -> Option<u8>
    ensures { result ≡ typed_length kind }
{
    match kind {
        descriptor_type::CONFIGURATION | descriptor_type::OTHER_SPEED_CONFIGURATION => {
            Some(descriptor_length::CONFIGURATION)
        }
        descriptor_type::INTERFACE => Some(descriptor_length::INTERFACE),
        descriptor_type::ENDPOINT => Some(descriptor_length::ENDPOINT),
        descriptor_type::INTERFACE_ASSOCIATION => Some(descriptor_length::INTERFACE_ASSOCIATION),
        _ => None,
    }
}

/// Whether a set gives descriptors of this type a meaning (USB 2.0, table 9-5, and its ECN on interface associations).
///
/// ```rust
/// assert_eq!(rt; (is_typed(4), is_typed(0x24)), (true, false));
/// ```
#[inline]
pub fn is_typed(kind: u8) -> bool
    ensures { result ≡ is_typed kind }
{
    typed_length(kind).is_some()
}

impl Extra {
    /// The extra of a descriptor of this type, which is neither an interface's nor an endpoint's.
    #[inline(always)]
    pub(crate) fn read(alloc: Global, kind: u8, body: &[u8]) -> Result<Extra, AllocError>
        requires { least_length kind ≤ 2 + length body.now }
        ensures { IfOk result (λ x. x ≡ extra_of (record { kind = kind; body = body.now })) }
    {
        match kind {
            descriptor_type::INTERFACE_ASSOCIATION => {
                Ok(Extra::Association(Association::read(alloc, body)?))
            }
            _ => Ok(Extra::Raw(Raw {
                kind,
                body: read_bytes(alloc, body)?,
            })),
        }
    }

    /// Whether it is raw, and of a type that a set gives a meaning: no set with bytes has one.
    #[inline]
    pub fn is_typed_raw(&self) -> bool
        ensures { result ≡ is_typed_raw self.now }
    {
        match self {
            Extra::Raw(raw) => is_typed(raw.kind),
            _ => false,
        }
    }
}

impl Raw {
    /// The most bytes of a body.
    pub const MOST_BODY: usize = 253;

    /// bDescriptorType.
    #[inline]
    pub fn descriptor_type(&self) -> u8
        ensures { result ≡ (raw_descriptor self.now).kind }
    {
        self.kind
    }

    /// The bytes of the fields that are known after bDescriptorType: none.
    #[inline]
    pub fn field_bytes(&self) -> [u8; 0]
        ensures { result ≡ [] }
    {
        []
    }

    /// The bytes beyond them.
    #[inline]
    pub fn tail(&self) -> &[u8]
        ensures { result.now ≡ self.now.body }
    {
        &self.body
    }
}

impl Association {
    ghost use Rattle.usb_set.specs.Descriptors.{association_descriptor, association_fields, association_of};

    /// The bytes of the association descriptor's fields (its ECN, 9.X.Y).
    #[inline]
    pub fn field_bytes(&self) -> [u8; 6]
        ensures { result ≡ fields_bytes association_fields self.now }
    {
        [
            self.first,
            self.count,
            self.class,
            self.subclass,
            self.protocol,
            self.text,
        ]
    }

    /// The most bytes of a tail.
    pub const MOST_TAIL: usize = 247;

    /// bDescriptorType.
    #[inline]
    pub fn descriptor_type(&self) -> u8
        ensures { result ≡ (association_descriptor self.now).kind }
    {
        descriptor_type::INTERFACE_ASSOCIATION
    }

    /// The bytes beyond the fields.
    #[inline]
    pub fn tail(&self) -> &[u8]
        ensures { result.now ≡ self.now.tail }
    {
        &self.tail
    }

    /// The association of a descriptor's body.
    fn read(alloc: Global, body: &[u8]) -> Result<Association, AllocError>
        requires { 6 ≤ length body.now }
        ensures { IfOk result (λ a. a ≡ association_of body.now) }
    {
        Ok(Association {
            first: body[0],
            count: body[1],
            class: body[2],
            subclass: body[3],
            protocol: body[4],
            text: body[5],
            tail: read_bytes(alloc, &body[6..])?,
        })
    }
}
