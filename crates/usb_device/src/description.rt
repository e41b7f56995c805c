//! The descriptors of a device, with the tree of their file.
ghost use Rattle.std.specs.Prelude.{◌≡◌, ◌<◌, IfErr, IfOk, OnOk, None};
ghost use Rattle.std.specs.Option.{option_copied};

use crate::acceptance::DescriptionFault;
use crate::encoded::Encoded;
use std::alloc::Global;
use std::marker::Model;
use usb_fields::Speed;
use usb_file_data::DescriptorFile;

/// The descriptors of a device, checked, and encoded once.
///
/// ```rust
/// let file = read_file(rt.alloc(), &bytes)?;
/// let description = Description::new(rt.alloc(), file, Speed::Full)?;
/// assert_eq!(rt; description.speed(), Speed::Full);
/// ```
#[derive(Debug, Drop)]
pub struct Description {
    file: DescriptorFile,
    encoded: Encoded,
}

impl Model for Description {
    ghost use Rattle.usb_device.specs.Descriptors.{Described};

    ghost Value = { Described };

    ghost use Rattle.usb_device.specs.inside.Descriptions.{described_of, IsDescription};

    ghost view = { described_of };

    ghost invariant = { IsDescription };
}

impl Description {
    ghost use Rattle.usb_device.specs.Accepted.{refusal_of, Accepted, Refuses};
    ghost use Rattle.usb_device.specs.Descriptors.{descriptor};

    /// The description of a device of this speed, exactly where the file is accepted: each of its descriptors is encoded
    /// here, once.
    ///
    /// # Errors
    ///
    /// [`DescriptionFault`], the first that applies in its order. The file is dropped then.
    pub fn new(alloc: Global, f: DescriptorFile, s: Speed) -> Result<Description, DescriptionFault>
        ensures ok { IfOk result (λ d. d ≡ record { file = f; speed = s }) }
        ensures accepted { OnOk result (Accepted f s) }
        ensures err { IfErr result (λ fault. Refuses f s fault) }
        // An accepted file has no reason to be rejected.
        ensures only { Accepted f s → refusal_of f s ≡ None }
    {
        match Encoded::new(alloc, &f, s) {
            Ok(encoded) => Ok(Description { file: f, encoded }),
            Err(fault) => Err(fault),
        }
    }

    /// The descriptors.
    pub fn file(&self) -> &DescriptorFile
        ensures file { result.now ≡ self.now.file }
        ensures packet { 0 < self.now.file.device.packet }
        // A description is made of accepted descriptors alone.
        ensures accepted { Accepted self.now.file self.now.speed }
    {
        self.encoded.known();
        &self.file
    }

    /// The same without the tree: what a device needs.
    pub fn encoded(&self) -> &Encoded
        ensures { result.now ≡ self.now }
    {
        &self.encoded
    }

    /// The speed that the device runs at.
    pub fn speed(&self) -> Speed
        ensures { result ≡ self.now.speed }
    {
        self.encoded.speed()
    }

    /// bMaxPacketSize0: [`Encoded::packet`].
    pub fn packet(&self) -> usize
        ensures packet { result ≡ self.now.file.device.packet }
        ensures some { 0 < result }
    {
        self.encoded.packet()
    }

    /// The bytes of the descriptor of this type and index, in this language where it is a string, or `None` where the
    /// device has none such.
    ///
    /// ```rust
    /// let bytes = description.descriptor(descriptor_type::DEVICE, 0, 0);
    /// assert_eq!(rt; bytes.map(|b| b.len()), Some(18));
    /// ```
    pub fn descriptor(&self, kind: u8, index: u8, language: u16) -> Option<&[u8]>
        ensures { option_copied result ≡ descriptor self.now.file kind index language }
    {
        self.encoded.descriptor(kind, index, language)
    }
}
