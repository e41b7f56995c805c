//! What holds of each walk. The functions of these laws do nothing: their contracts are the laws.
ghost use Rattle.usb_walk.specs.WalkedDescriptors.{AllGoOn};

/// From any numbers a walk gives a descriptor at their position, of two bytes at least and within the bytes, and goes on where that
/// ends: it never stays where it is, and never passes the end.
pub fn each_step_goes_on()
    ensures { AllGoOn }
{}
