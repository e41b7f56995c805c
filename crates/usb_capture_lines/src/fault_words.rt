//! What a fault of a capture file means.
ghost use Rattle.std.specs.Prelude.{◌≡◌};
ghost use Rattle.usb_capture_lines.specs.FaultWords.{capture_meaning};

use usb_capture::CaptureFault;

/// What a fault of a capture file means, for people.
pub fn capture_meaning(fault: CaptureFault) -> &'static str
    ensures { result.now ≡ capture_meaning fault }
{
    match fault {
        CaptureFault::Magic => "no recording: neither pcap, nor pcapng, nor usbmon's text",
        CaptureFault::Order => "a section of neither byte order",
        CaptureFault::Length => "a block of a length that its type doesn't have",
        CaptureFault::Trailer => "a block whose two lengths differ",
        CaptureFault::Version => "a section of a version other than 1",
        CaptureFault::Long => "a description of an interface of over 65,627 bytes",
        CaptureFault::Interfaces => "a section with over 65,536 interfaces",
        CaptureFault::Options => "an option of an interface that isn't whole",
        CaptureFault::Interface => "a packet of an interface that isn't there",
        CaptureFault::Data => "a packet whose data run past its block",
        CaptureFault::Line => "no line of usbmon's text",
        CaptureFault::Memory => "there was not enough memory",
    }
}
