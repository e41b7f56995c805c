//! Laws of what a device keeps, and of its image.
//!
//! The functions of these laws do nothing: their contracts are the laws.
ghost use Rattle.std.specs.Prelude.{◌≡◌, ◌<◌, ◌^◌, ◌||◌, ◌&&◌, ℕ, List, not, false, true};
ghost use Rattle.usb_file_data.specs.declared.file.DescriptorFile.{DescriptorFile};
ghost use Rattle.usb_fields.specs.declared.packet.Speed.{Speed};
ghost use Rattle.usb_device.specs.Accepted.{Accepted};
ghost use Rattle.usb_device.specs.Conformance.{is_free, is_free_to};
ghost use Rattle.usb_device.specs.FileImages.{image_of};
ghost use Rattle.usb_device.specs.Images.{image_bytes, pieces_of, Piece};
ghost use Rattle.usb_device.specs.Offers.{has_head, offer_in, offer_of};
ghost use Rattle.usb_device.specs.Requests.{answer, answer_to};
ghost use Rattle.usb_device.specs.View.{acked_by, acked_over, served_by, served_over};
ghost use Rattle.usb_device.specs.States.{is_halted, is_same_endpoint, with_halt, without_halt};

/// The 32 bits of [`State::halts`](crate::State::halts) are a set of endpoints, of those OUT and those IN alike (USB
/// 2.0, 9.4.5 and 9.6.6).
#[tactic(auto, using(crate::proofs::HaltLemmas::sets))]
pub fn halts_are_a_set()
    // It is empty in a new device, a halt that is set adds its endpoint, and one that is cleared takes it out.
    ensures none { (e : ℕ) → is_halted 0 e ≡ false }
    ensures with { (halts a b : ℕ) → is_halted (with_halt halts a) b ≡ (is_same_endpoint a b || is_halted halts b) }
    ensures without { (halts a b : ℕ) → is_halted (without_halt halts a) b ≡ (not (is_same_endpoint a b) && is_halted halts b) }

    // Two numbers that are the same set are the same.
    ensures same { (halts others : ℕ) → halts < 2 ^ 32 → others < 2 ^ 32 → ((e : ℕ) → is_halted halts e ≡ is_halted others e) → halts ≡ others }
{}

/// A device image is read as the pieces that it was written of, and so offers what the file does that it was written of: a
/// device goes on over an image as over its file.
#[tactic(auto, using(crate::proofs::PieceLemmas::read_back, crate::proofs::OfferLemmas::same_offer, crate::proofs::OfferLemmas::same_answers, crate::proofs::OfferLemmas::same_served, crate::proofs::OfferLemmas::same_acked, crate::proofs::OfferLemmas::same_free, crate::proofs::OfferLemmas::has_head_back))]
pub fn an_image_is_read_back()
    ensures pieces { (pieces : List Piece) → pieces_of (image_bytes pieces) ≡ pieces }
    ensures offer { (f : DescriptorFile) → offer_in (image_of f) ≡ offer_of f }
    ensures answers { (f : DescriptorFile) → answer_to (offer_in (image_of f)) ≡ answer f }
    ensures served { (f : DescriptorFile) → served_over (image_of f) ≡ served_by f }
    ensures acked { (f : DescriptorFile) → acked_over (image_of f) ≡ acked_by f }
    ensures free { (f : DescriptorFile) → is_free_to (offer_in (image_of f)) ≡ is_free f }
    ensures head { (f : DescriptorFile) → (s : Speed) → Accepted f s → has_head (image_of f) ≡ true }
{}
