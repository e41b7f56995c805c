//! What the statuses of a host's system mean on the bus.
ghost use Rattle.std.specs.Prelude.{◌≡◌};
ghost use Rattle.usb_capture_lines.specs.Statuses.{errno_words, status_words, usbd_words};

/// The least number of 32 bits that is a negative error number of Linux, which has 4095 of them.
pub(crate) const LEAST_ERRNO: u32 = 0xffff_f001;

/// The name of a status that is no success, and what it means on the bus: an error number of Linux in two's complement (the
/// kernel's document "USB Error codes"), or a `USBD_STATUS` of Windows (usb.h).
#[tactic(auto, unfolding(crate::specs::Statuses::status_words))]
pub(crate) fn status_words(status: u32) -> &'static str
    ensures { result.now ≡ status_words status }
{
    if status >= LEAST_ERRNO {
        errno_words(u32::MAX - status + 1)
    } else {
        usbd_words(status)
    }
}

fn errno_words(errno: u32) -> &'static str
    ensures { result.now ≡ errno_words errno }
{
    match errno {
        1 => "EPERM: nothing may be sent to the device now",
        2 => "ENOENT: the host took it back before its end",
        11 => "EAGAIN: the host can't send it now",
        12 => "ENOMEM: the host was out of memory",
        18 => "EXDEV: a part of an isochronous transfer failed",
        19 => "ENODEV: the device is gone",
        22 => "EINVAL: no such transfer can be made",
        28 => "ENOSPC: the bus has no bandwidth left",
        32 => "EPIPE: the endpoint is halted",
        62 => "ETIME: no answer within the time of a packet",
        63 => "ENOSR: the host's data came too late for the bus",
        70 => "ECOMM: the bus brought data faster than the host stored them",
        71 => "EPROTO: no whole answer; look at wire, clock, the first packet",
        75 => "EOVERFLOW: more bytes came than were asked for",
        84 => "EILSEQ: a wrong CRC, or no answer; look at wire and clock",
        90 => "EMSGSIZE: a packet is too long for the endpoint",
        104 => "ECONNRESET: the host took it back before its end",
        108 => "ESHUTDOWN: the device or the host controller is gone",
        110 => "ETIMEDOUT: no end within the time that the host gave",
        113 => "EHOSTUNREACH: the device is suspended",
        121 => "EREMOTEIO: fewer bytes came than the driver takes",
        _ => "a status without a name here",
    }
}

fn usbd_words(status: u32) -> &'static str
    ensures { result.now ≡ usbd_words status }
{
    match status {
        0xc000_0001 => "CRC: a packet with a wrong CRC",
        0xc000_0002 => "BTSTUFF: a packet with a wrong stuffed bit",
        0xc000_0003 => "DATA_TOGGLE_MISMATCH: DATA0 in the place of DATA1, or the reverse",
        0xc000_0004 => "STALL_PID: the endpoint is halted",
        0xc000_0005 => "DEV_NOT_RESPONDING: no answer; look at wire, clock, power",
        0xc000_0006 => "PID_CHECK_FAILURE: a packet whose PID isn't one",
        0xc000_0007 => "UNEXPECTED_PID: a packet that has no place here",
        0xc000_0008 => "DATA_OVERRUN: more bytes came than were asked for",
        0xc000_0009 => "DATA_UNDERRUN: fewer bytes came than were asked for",
        0xc000_000c => "BUFFER_OVERRUN: data came faster than the host stored them",
        0xc000_000d => "BUFFER_UNDERRUN: the host's data came too late for the bus",
        0xc000_0010 => "FIFO: the host's data came too late for the bus",
        0xc000_0011 => "XACT_ERROR: no whole answer; look at wire, clock, the first packet",
        0xc000_0012 => "BABBLE_DETECTED: more bytes came than were asked for",
        0xc000_0013 => "DATA_BUFFER_ERROR: the host's memory was too slow for the bus",
        0xc000_0030 => "ENDPOINT_HALTED: the endpoint is halted",
        0xc000_6000 => "TIMEOUT: no end within the time that the host gave",
        0xc000_7000 => "DEVICE_GONE: the device is gone",
        0xc000_9000 => "HUB_INTERNAL_ERROR: the hub failed",
        0xc001_0000 => "CANCELED: the host took it back before its end",
        0x8000_0200 => "INVALID_URB_FUNCTION: no such transfer can be made",
        0x8000_0300 => "INVALID_PARAMETER: no such transfer can be made",
        0x8000_0700 => "NO_BANDWIDTH: the bus has no bandwidth left",
        0x8000_0800 => "INTERNAL_HC_ERROR: the host controller failed",
        0x8000_0900 => "ERROR_SHORT_TRANSFER: fewer bytes came than the driver takes",
        _ => "a status without a name here",
    }
}
