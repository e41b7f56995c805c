//! Requests by which a device's state shows or changes (USB 2.0, 9.4).
ghost use Rattle.std.specs.Prelude.{◌≡◌};
ghost use Rattle.usb_capture.specs.DeviceStates.{asks_for_status, changes_feature, changes_state, is_compared, is_of_setting};

use crate::configured::reads_configuration;
use usb_fields::{Class, Setup, request};

/// Whether it is CLEAR_FEATURE, SET_FEATURE, SET_CONFIGURATION or SET_INTERFACE.
pub(crate) fn changes_state(setup: &Setup) -> bool
    ensures { result ≡ changes_state setup.now }
{
    setup.class() == Class::Standard
        && (setup.request == request::CLEAR_FEATURE
            || setup.request == request::SET_FEATURE
            || setup.request == request::SET_CONFIGURATION
            || setup.request == request::SET_INTERFACE)
}

/// Whether the answer to a request is compared with the one of USB 2.0.
pub(crate) fn is_compared(setup: &Setup) -> bool
    ensures { result ≡ is_compared setup.now }
{
    asks_for_status(setup)
        || changes_feature(setup)
        || is_of_setting(setup)
        || reads_configuration(setup)
}

/// Whether it is GET_STATUS of the device, an interface or an endpoint (9.4.5).
pub(crate) fn asks_for_status(setup: &Setup) -> bool
    ensures { result ≡ asks_for_status setup.now }
{
    ((setup.request_type == 0x80 && setup.index == 0)
        || setup.request_type == 0x81
        || setup.request_type == 0x82)
        && setup.request == request::GET_STATUS
        && setup.value == 0
        && setup.index < 256
        && setup.length == 2
}

/// Whether it is CLEAR_FEATURE or SET_FEATURE of DEVICE_REMOTE_WAKEUP, or of an endpoint's ENDPOINT_HALT (9.4.1 and 9.4.9).
pub(crate) fn changes_feature(setup: &Setup) -> bool
    ensures { result ≡ changes_feature setup.now }
{
    (setup.request == request::CLEAR_FEATURE || setup.request == request::SET_FEATURE)
        && setup.length == 0
        && ((setup.request_type == 0 && setup.value == 1 && setup.index == 0)
            || (setup.request_type == 2 && setup.value == 0 && setup.index < 256))
}

/// Whether it is GET_INTERFACE or SET_INTERFACE (9.4.4 and 9.4.10).
pub(crate) fn is_of_setting(setup: &Setup) -> bool
    ensures { result ≡ is_of_setting setup.now }
{
    setup.index < 256
        && ((setup.request_type == 0x81
            && setup.request == request::GET_INTERFACE
            && setup.value == 0
            && setup.length == 1)
            || (setup.request_type == 1
                && setup.request == request::SET_INTERFACE
                && setup.value < 256
                && setup.length == 0))
}
