//! The line that says what lacks of a device's descriptors.
ghost use Rattle.std.specs.Prelude.{◌≡◌, Some};
ghost use Rattle.usb_tool.specs.Faults.{lack_line};

use std::fmt;
use usb_capture::FileLack;
use usb_capture_lines::DeviceAddress;

/// What lacks of the descriptors of a device.
#[derive(Clone, Copy)]
pub(crate) struct LackLine {
    pub(crate) device: DeviceAddress,
    pub(crate) lack: FileLack,
}

impl fmt::Display for LackLine {
    ghost output = { λ line. Some (lack_line line.device line.lack) };

    fn fmt<W: fmt::Write>(&self, f: &mut fmt::Formatter<W>) -> fmt::Result {
        let DeviceAddress { bus, device } = self.device;
        match self.lack {
            FileLack::Device => {
                write!(
                    f,
                    "usbdesc: capture lacks device descriptor of {bus}.{device}"
                )
            }
            FileLack::Configuration(index) => {
                write!(
                    f,
                    "usbdesc: capture lacks configuration {index} of {bus}.{device}"
                )
            }
            FileLack::Memory => write!(f, "usbdesc: out of memory"),
        }
    }
}
