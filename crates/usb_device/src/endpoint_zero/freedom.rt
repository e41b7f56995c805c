//! Transfers whose outcome is open to a device under test.
ghost use Rattle.std.specs.Prelude.{◌≡◌, ℕ, List};
ghost use Rattle.usb_device.specs.Conformance.{is_free_to, is_refusing};
ghost use Rattle.usb_device.specs.Offers.{offer_in};

use super::EndpointZero;
use crate::beside::is_open;
use crate::image::Image;
use crate::request::Request;
use crate::stage::Stage;
use usb_fields::Setup;

impl EndpointZero {
    ghost use Rattle.usb_device.specs.View.{device_of};

    /// Whether the outcome of the transfer of this request is open to a device under test: this one refuses it, and its owner may
    /// answer it, or a device may either carry it out or refuse it.
    pub fn is_free(&self, image: Image<'_>, setup: Setup) -> bool
        ensures { (room : List ℕ) → result ≡ is_free_to (offer_in image.entry.bytes.now) (device_of image.entry.bytes.now room self.now) setup }
    {
        let request = Request {
            image,
            state: &self.state,
            setup,
        };
        (self.is_refusing() && is_open(setup)) || request.is_either()
    }

    fn is_refusing(&self) -> bool
        ensures { (image : List ℕ) → (room : List ℕ) → result ≡ is_refusing (device_of image room self.now).stage }
    {
        matches!(Stage::of(self.stage), Stage::Halted)
    }
}
