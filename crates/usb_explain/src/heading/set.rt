//! The configuration, interface association and interface descriptors.
ghost use Rattle.std.specs.Prelude.{◌≡◌, ◌∷◌, [], IsTrue, OnOk};
ghost use Rattle.usb_text.specs.Shown.{Number, showing_all};
ghost use Rattle.usb_text.specs.Written.{is_words};
ghost use Rattle.usb_explain.specs.Sets.{association_shown, binding_shown, bound_shown, configuration_shown, interface_shown};

use crate::form::value::source_words;
use crate::names::put_function_class_words;
use crate::speed_words::{put_power, speed_words};
use std::alloc::AllocError;
use usb_fields::byte_at;
use usb_remarks::SetSpeed;
use usb_text::Page;

/// Puts the words of the heading of a set's first descriptor (USB 2.0, 9.6.3 and 9.6.4).
#[inline(always)]
#[tactic(auto, unfolding(crate::specs::Sets::configuration_shown))]
pub(crate) fn put_configuration_words<P: Page>(
    page: &mut P,
    speed: SetSpeed,
    b: &[u8],
) -> Result<(), AllocError>
    ensures { OnOk result (P.seen page.new ≡ showing_all P.showing (configuration_shown speed b.now) (P.seen page.old)) }
{
    page.put(set_words(byte_at(b, 1)))?;
    page.put_decimal(u64::from(byte_at(b, 5)))?;
    page.put(", ")?;
    page.put(speed_words(speed))?;
    page.put(", ")?;
    page.put_count(u64::from(byte_at(b, 4)), "interface")?;
    page.put(", ")?;
    page.put(source_words(byte_at(b, 7)))?;
    page.put(", ")?;
    put_power(page, speed, byte_at(b, 8))
}

fn set_words(descriptor_type: u8) -> &'static str
    ensures { IsTrue (is_words result.now) }
{
    if descriptor_type == 7 {
        "other-speed configuration "
    } else {
        "configuration "
    }
}

/// Puts the words of an interface association's heading (its ECN, 9.X.Y).
#[inline(always)]
#[tactic(auto, using(usb_text::proofs::ShownLines::showing_joined), unfolding(crate::specs::Sets::association_shown))]
pub(crate) fn put_association_words<P: Page>(
    page: &mut P,
    number: u64,
    b: &[u8],
) -> Result<(), AllocError>
    ensures { OnOk result (P.seen page.new ≡ showing_all P.showing (association_shown number b.now) (P.seen page.old)) }
{
    page.put("association ")?;
    page.put_decimal(number)?;
    page.put(" of ")?;
    put_bound(page, byte_at(b, 2), byte_at(b, 3))?;
    page.put(", ")?;
    put_function_class_words(
        page,
        byte_at(b, 1),
        byte_at(b, 4),
        byte_at(b, 5),
        byte_at(b, 6),
    )
}

/// Puts which interfaces it binds. Their numbers don't wrap: the last may be one that no interface can have.
#[tactic(auto, unfolding(crate::specs::Sets::bound_shown))]
fn put_bound<P: Page>(page: &mut P, first: u8, count: u8) -> Result<(), AllocError>
    ensures { OnOk result (P.seen page.new ≡ showing_all P.showing (bound_shown first count) (P.seen page.old)) }
{
    if count == 0 {
        return page.put("no interface");
    }
    if count == 1 {
        page.put("interface ")?;
        return page.put_decimal(u64::from(first));
    }
    page.put("interfaces ")?;
    page.put_decimal(u64::from(first))?;
    page.put(" to ")?;
    page.put_decimal(u64::from(first) + u64::from(count) - 1)
}

/// Puts the words of an interface descriptor's heading (9.6.5).
#[inline(always)]
#[tactic(auto, using(usb_text::proofs::ShownLines::showing_joined), unfolding(crate::specs::Sets::interface_shown))]
pub(crate) fn put_interface_words<P: Page>(
    page: &mut P,
    association: Option<u64>,
    b: &[u8],
) -> Result<(), AllocError>
    ensures { OnOk result (P.seen page.new ≡ showing_all P.showing (interface_shown association b.now) (P.seen page.old)) }
{
    put_setting(page, byte_at(b, 2), byte_at(b, 3))?;
    put_binding(page, association)?;
    page.put(", ")?;
    put_function_class_words(
        page,
        byte_at(b, 1),
        byte_at(b, 5),
        byte_at(b, 6),
        byte_at(b, 7),
    )?;
    page.put(", ")?;
    page.put_count(u64::from(byte_at(b, 4)), "endpoint")
}

fn put_binding<P: Page>(page: &mut P, association: Option<u64>) -> Result<(), AllocError>
    ensures { OnOk result (P.seen page.new ≡ showing_all P.showing (binding_shown association) (P.seen page.old)) }
{
    match association {
        None => Ok(()),
        Some(number) => {
            page.put(" of association ")?;
            page.put_decimal(number)
        }
    }
}

#[inline(always)]
fn put_setting<P: Page>(page: &mut P, interface: u8, alternate: u8) -> Result<(), AllocError>
    ensures { OnOk result (P.seen page.new ≡ showing_all P.showing (Number interface ∷ Number alternate ∷ []) (P.seen page.old)) }
{
    page.put("interface ")?;
    page.put_decimal(u64::from(interface))?;
    page.put(" alternate ")?;
    page.put_decimal(u64::from(alternate))
}
