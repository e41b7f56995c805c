//! The descriptors of a device, ready to be sent: a description without the tree.
ghost use Rattle.std.specs.Prelude.{◌≡◌, ◌<◌, IfErr, IfOk, OnOk, None};
ghost use Rattle.std.specs.Option.{option_copied};
ghost use Rattle.usb_fields.specs.Bytes.{AreBytes};
ghost use Rattle.usb_file_data.specs.File.{file_bytes};
ghost use Rattle.usb_device.specs.FileImages.{image_of};

use crate::acceptance::DescriptionFault;
use crate::file_image::write_image;
use crate::image::Image;
use std::alloc::Global;
use std::fmt;
use std::marker::Model;
use std::snapshot::Snapshot;
use usb_fields::{Speed, known_bytes};
use usb_file_data::DescriptorFile;

/// The descriptors of a device, checked, and encoded once: all that a device needs of a
/// [`Description`](crate::Description), without the tree that they are in a file.
///
/// ```rust
/// let file = read_file(rt.alloc(), &bytes)?;
/// let encoded = Encoded::new(rt.alloc(), &file, Speed::Full)?;
/// drop(file);
/// let device = Device::of(&encoded);
/// ```
#[derive(Drop)]
pub struct Encoded {
    /// For the proofs alone: the file.
    file: Snapshot<DescriptorFile>,
    speed: Speed,
    image: Vec<u8>,
}

impl Model for Encoded {
    ghost use Rattle.usb_device.specs.Descriptors.{Described};

    ghost Value = { Described };

    ghost use Rattle.usb_device.specs.inside.Descriptions.{encoded_of, IsEncoded};

    ghost view = { encoded_of };

    ghost invariant = { IsEncoded };
}

impl Encoded {
    ghost use Rattle.usb_device.specs.Accepted.{refusal_of, Accepted, Refuses};
    ghost use Rattle.usb_device.specs.Descriptors.{descriptor};
    ghost use Rattle.usb_device.specs.Offers.{offer_in, packet_in};
    ghost use Rattle.usb_device.specs.Requests.{answer, answer_to};

    /// Those of a device of this speed, exactly where the file is accepted: each of its descriptors is encoded here, once.
    ///
    /// # Errors
    ///
    /// [`DescriptionFault`], the first that applies in its order.
    pub fn new(alloc: Global, f: &DescriptorFile, s: Speed) -> Result<Encoded, DescriptionFault>
        ensures ok { IfOk result (λ d. d ≡ record { file = f.now; speed = s }) }
        ensures accepted { OnOk result (Accepted f.now s) }
        ensures err { IfErr result (λ fault. Refuses f.now s fault) }
        // An accepted file has no reason to be rejected.
        ensures only { Accepted f.now s → refusal_of f.now s ≡ None }
    {
        let image = write_image(alloc, f, s)?;
        Ok(Encoded {
            file: Snapshot::of(f),
            speed: s,
            image,
        })
    }

    /// For the proofs of callers: the descriptors are accepted, and their numbers fit their fields.
    pub fn known(&self)
        ensures fits { AreBytes (file_bytes self.now.file) }
        ensures packet { 0 < self.now.file.device.packet }
        ensures accepted { Accepted self.now.file self.now.speed }
    {
        known_bytes(&self.image);
    }

    /// The speed that the device runs at.
    pub fn speed(&self) -> Speed
        ensures { result ≡ self.now.speed }
    {
        self.speed
    }

    /// The image that a device answers from. Over it a device answers as the file says.
    #[tactic(auto, using(crate::proofs::AcceptedLemmas::packet_some, crate::proofs::OfferLemmas::head_back, crate::proofs::OfferLemmas::same_answers))]
    #[inline(always)]
    pub fn image(&self) -> Image<'_>
        ensures image { result.bytes.now ≡ image_of self.now.file }
        ensures packet { packet_in result.bytes.now ≡ self.now.file.device.packet }
        ensures some { 0 < packet_in result.bytes.now }
        ensures answers { answer_to (offer_in result.bytes.now) ≡ answer self.now.file }
    {
        Image { bytes: &self.image }
    }

    /// bMaxPacketSize0: [`Image::packet`]. It is never 0.
    #[inline(always)]
    pub fn packet(&self) -> usize
        ensures packet { result ≡ self.now.file.device.packet }
        ensures some { 0 < result }
    {
        self.image().packet()
    }

    /// The bytes of the descriptor of this type and index, in this language where it is a string, or `None` where the
    /// device has none such: [`Image::descriptor`].
    #[tactic(auto, using(crate::proofs::OfferLemmas::same_descriptor))]
    pub fn descriptor(&self, kind: u8, index: u8, language: u16) -> Option<&[u8]>
        ensures { option_copied result ≡ descriptor self.now.file kind index language }
    {
        self.image().descriptor(kind, index, language)
    }
}

impl fmt::Debug for Encoded {
    fn fmt<W: fmt::Write>(&self, f: &mut fmt::Formatter<W>) -> fmt::Result {
        f.debug_struct("Encoded")
            .field("speed", &self.speed)
            .field("image", &self.image)
            .finish_non_exhaustive()
    }
}
