//! How a set begins.
ghost use Rattle.std.specs.Prelude.{◌≡◌, Some, option_and_then};
ghost use Rattle.usb_remarks.specs.SetSpeeds.{other_speed};
ghost use Rattle.usb_remarks.specs.SetStart.{after_own_sets, background_after, background_alone, background_by, background_of, entered, has_qualifier, looked, own_ahead, own_sets, own_side, sets_ahead, side_of_qualifier, speed_after_qualifier, surveyed};

use crate::device_facts::DeviceFacts;
use crate::outline_state::OutlineState;
use crate::set_speed::{Background, other_speed, side_speed, speed_by};
use crate::speed::SetSpeed;
use crate::speed_evidence::Evidence;
use crate::survey::survey;
use usb_fields::{after, byte_at, descriptor_type, prefix, word_at};
use usb_file_data::after_sets;
use usb_walk::Role;

impl OutlineState {
    /// Comes to a descriptor of this role, with which the bytes begin.
    pub(crate) fn enter(&mut self, role: Role, running: Option<SetSpeed>, ahead: &[u8])
        ensures { self.new ≡ entered role running ahead.now self.old }
    {
        self.look_ahead(role, running, ahead);
        self.position.enter(role, ahead);
    }

    /// Looks for the two speeds of a device, and for what the descriptors of a set say of the whole of it.
    #[tactic(auto, unfolding(crate::specs::SetStart::other_ahead, crate::specs::SetStart::other_side))]
    fn look_ahead(&mut self, role: Role, running: Option<SetSpeed>, ahead: &[u8])
        ensures { self.new ≡ looked role running ahead.now self.old }
    {
        match role {
            Role::Device => {
                self.look_at_own_side(running, ahead);
                self.look_at_other_side(after_own_sets(ahead));
            }
            Role::Configuration => self.survey(running, ahead),
            _ => {}
        }
    }

    /// Gathers what a set says, of whose bytes and those after it these are there.
    #[tactic(auto, unfolding(crate::specs::SetStart::surveyed))]
    fn survey(&mut self, running: Option<SetSpeed>, ahead: &[u8])
        ensures { self.new ≡ surveyed running ahead.now self.old }
    {
        let total = usize::from(word_at(ahead, 2));
        let background = self.background(running);
        let spoken = survey(
            prefix(ahead, total),
            &mut self.bindings,
            &mut self.interfaces,
        );
        self.before.clear();
        self.speed = speed_by(background, spoken);
    }

    /// Looks at the device with which the bytes begin and its own sets: for its speed if it has another one, as far as they say, and
    /// for that which they prove.
    #[tactic(auto, unfolding(crate::specs::SetSpeeds::survey_of, crate::specs::SetStart::own_ahead, crate::specs::SetStart::own_side))]
    fn look_at_own_side(&mut self, running: Option<SetSpeed>, ahead: &[u8])
        ensures { self.new ≡ record self.old { own_speed = own_ahead running ahead.now; own_side = own_side ahead.now } }
    {
        let device = DeviceFacts::of_device(ahead);
        let spoken = Evidence::of(own_sets(ahead));
        let background = background_of(running, device, Some(SetSpeed::FullOrHigh));
        self.own_speed = speed_by(background, spoken);
        self.own_side = side_speed(device, spoken);
    }

    /// Looks for a qualifier with which the bytes begin, and then at it and the sets after it.
    #[tactic(auto, unfolding(crate::specs::SetSpeeds::survey_of))]
    fn look_at_other_side(&mut self, b: &[u8])
        ensures { self.new ≡ record self.old { other_speed = speed_after_qualifier b.now; other_side = side_of_qualifier b.now } }
    {
        if has_qualifier(b) {
            let qualifier = DeviceFacts::of_qualifier(b);
            let spoken = Evidence::of(after(b, 10));
            let background = background_after(None, qualifier, SetSpeed::FullOrHigh);
            self.other_speed = Some(speed_by(background, spoken));
            self.other_side = side_speed(qualifier, spoken);
        } else {
            self.other_speed = None;
            self.other_side = None;
        }
    }

    /// What is known of a set beside its descriptors, by its device, which may have a qualifier before the set.
    fn background(&self, running: Option<SetSpeed>) -> Background
        ensures { result ≡ background_by running self.now self.now.device self.now.qualifier }
    {
        match (self.device, self.qualifier) {
            (None, _) => background_alone(running),
            (Some(device), None) => background_of(running, device, self.other_speed),
            (Some(_), Some(qualifier)) => background_after(running, qualifier, self.own_speed),
        }
    }
}

/// What is known of a set alone.
#[tactic(auto, unfolding(crate::specs::SetStart::background_alone))]
fn background_alone(running: Option<SetSpeed>) -> Background
    ensures { result ≡ background_alone running }
{
    Background {
        known: running,
        packet: None,
        other: None,
        is_hub: false,
        hinted: None,
    }
}

/// What is known of sets by the device or the qualifier before them.
#[tactic(auto, unfolding(crate::specs::SetStart::background_of))]
fn background_of(known: Option<SetSpeed>, facts: DeviceFacts, other: Option<SetSpeed>) -> Background
    ensures { result ≡ background_of known facts other }
{
    Background {
        known: known.or(facts.speed),
        packet: Some(facts.packet),
        other,
        is_hub: facts.is_hub,
        hinted: facts.hinted,
    }
}

/// What is known of the sets after a qualifier, which are those of the other speed.
fn background_after(running: Option<SetSpeed>, qualifier: DeviceFacts, own: SetSpeed) -> Background
    ensures { result ≡ background_after running qualifier own }
{
    background_of(other_speed_of(running), qualifier, Some(own))
}

/// The other speed of a device that ran at this one.
pub(crate) fn other_speed_of(running: Option<SetSpeed>) -> Option<SetSpeed>
    ensures { result ≡ option_and_then other_speed running }
{
    match running {
        None => None,
        Some(speed) => other_speed(speed),
    }
}

/// The bytes of the sets of the device with which these bytes begin.
fn own_sets(ahead: &[u8]) -> &[u8]
    ensures { result.now ≡ own_sets ahead.now }
{
    sets_ahead(byte_at(ahead, 17), after(ahead, 18))
}

/// The first `sets` sets with which bytes begin, as far as they are there.
pub(crate) fn sets_ahead(sets: u8, b: &[u8]) -> &[u8]
    ensures { result.now ≡ sets_ahead sets b.now }
{
    prefix(b, b.len().saturating_sub(after_sets(sets, b).len()))
}

/// The bytes after these sets.
fn after_own_sets(ahead: &[u8]) -> &[u8]
    ensures { result.now ≡ after_own_sets ahead.now }
{
    after_sets(byte_at(ahead, 17), after(ahead, 18))
}

#[tactic(auto, unfolding(crate::specs::SetStart::has_qualifier))]
fn has_qualifier(b: &[u8]) -> bool
    ensures { result ≡ has_qualifier b.now }
{
    b.len() >= 10 && byte_at(b, 0) == 10 && byte_at(b, 1) == descriptor_type::DEVICE_QUALIFIER
}
