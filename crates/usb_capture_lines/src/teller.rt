//! What is known of a recording so far, and what was said of it.
ghost use Rattle.std.specs.Prelude.{◌≡◌, ◌++◌, ◌∷◌, [], List, Some, None, IfErr, IfOk, OnOk, is_some, length};
ghost use Rattle.std.specs.Io.KnownBytes.{Appends};
ghost use Rattle.std.specs.Option.{option_to_list};
ghost use Rattle.usb_capture.specs.DeviceFiles.{IsLack, IsMade};
ghost use Rattle.usb_capture.specs.declared.control_transfer.ControlTransfer.{ControlTransfer};
ghost use Rattle.usb_capture.specs.declared.frame.Frame.{Frame};
ghost use Rattle.usb_capture.specs.Conversations.{Knows};
ghost use Rattle.usb_capture.specs.DeviceReadings.{HasCurrent};
ghost use Rattle.usb_capture.specs.TransferFindings.{findings};
ghost use Rattle.usb_text.specs.Output.{Held};
ghost use Rattle.usb_capture_lines.specs.Observations.{Observed};
ghost use Rattle.usb_capture_lines.specs.Recordings.{address_of, asked_at, bus_lines, counted, finds_any, first_part, last_lines, lines_of, met, met_all, met_in, open_lines, over_lines, replaced_in, replaced_with};
ghost use Rattle.usb_capture_lines.specs.Telling.{HasSaid};

use crate::bus_finding::BusFinding;
use crate::completed::Completed;
use crate::finding_lines::{put_bus_findings, put_findings};
use crate::last_lines::{finds_any, put_counts, put_cut, put_devices, put_first_line};
use crate::observer::Observer;
use crate::seen_device::{SeenDevice, meet, meet_all};
use crate::selection::{DeviceAddress, Selection, time_of};
use crate::tally::{Tally, replaced_with};
use crate::transfer_line::put_transfer;
use std::alloc::{AllocError, Global};
use std::io::Write;
use usb_capture::{
    ControlTransfer, Conversations, DeviceFile, DeviceReadings, FileLack, Finding, Frame,
    OpenTransfer,
};
use usb_text::{OutFault, Text, write_all};

/// Takes the frames of a recording one by one, in order, and writes lines: the first one, those of each control transfer that is
/// over and of what is wrong in packets, and at last those of [`Teller::finish`]. It keeps the transfers whose end hasn't come, what devices said of themselves, the last
/// whole reading of each descriptor of the devices that have their addresses now, and which devices there were, however long the
/// recording is.
///
/// ```rust
/// let mut teller = Teller::new(alloc, selection, first);
/// while let Some(frame) = frames.next()? {
///     teller.take(&frame, &mut writer)?;
/// }
/// teller.finish(reader.place(), reader.pending(), &mut writer)?;
/// ```
#[derive(Debug, Drop)]
pub struct Teller {
    alloc: Global,
    selection: Selection,
    /// The first byte of the file.
    first: u8,
    observer: Observer,
    conversations: Conversations,
    readings: DeviceReadings,
    devices: Vec<SeenDevice>,
    tally: Tally,
    /// How many transfers are over before whose end the next request came.
    replaced: u64,
}

impl Teller {
    /// One that has taken no frame of a file with this first byte.
    pub fn new(alloc: Global, selection: Selection, first: u8) -> Teller
        ensures selection { result.selection ≡ selection }
        ensures first { result.first ≡ first }
        ensures said { (held : Held) → HasSaid [] [] result held held }
    {
        Teller {
            alloc,
            selection,
            first,
            observer: Observer::new(alloc),
            conversations: Conversations::new(alloc),
            readings: DeviceReadings::new(alloc),
            devices: Vec::new(alloc),
            tally: Tally::new(),
            replaced: 0,
        }
    }

    /// Takes a frame, and writes what is to be said then.
    ///
    /// # Errors
    ///
    /// `Write` where the writer failed, and `Memory`.
    pub fn take<W: Write>(&mut self, frame: &Frame, w: &mut W) -> Result<(), OutFault>
        ensures ok { OnOk result ((frames : List Frame) (observed : List Observed) (held : Held) → HasSaid frames observed self.old held (W.contents w.old)
            → (x : Observed) × HasSaid (frame.now ∷ frames) (x ∷ observed) self.new held (W.contents w.new)) }
        ensures selection { self.new.selection ≡ self.old.selection }
        ensures first { self.new.first ≡ self.old.first }
    {
        self.count(frame, w)?;
        let completed = self.observer.take(self.tally.frames, frame)?;
        let Completed { transfer, found } = completed;
        self.take_transfer(transfer, w)?;
        self.take_findings(&found, w)
    }

    /// Counts a frame, and writes the first line at the first one.
    fn count<W: Write>(&mut self, frame: &Frame, w: &mut W) -> Result<(), OutFault>
        ensures said { OnOk result (Appends (W.contents w.old) (W.contents w.new) (first_part self.old.first self.old.tally.link frame.now.link)) }
        ensures counted { self.new ≡ record self.old { tally = counted frame.now self.old.tally } }
    {
        let is_first = self.tally.link.is_none();
        self.tally = self.tally.with(frame);
        if is_first {
            self.begin(frame.link, w)
        } else {
            Ok(())
        }
    }

    fn begin<W: Write>(&self, link: u16, w: &mut W) -> Result<(), OutFault>
        ensures { OnOk result (Appends (W.contents w.old) (W.contents w.new) (first_part self.now.first None link)) }
    {
        let mut text = Text::new(self.alloc);
        put_first_line(&mut text, self.first, link)?;
        write_all(w, text.as_bytes())
    }

    /// Takes a transfer that is over, if one is.
    fn take_transfer<W: Write>(
        &mut self,
        over: Option<ControlTransfer>,
        w: &mut W,
    ) -> Result<(), OutFault>
        ensures found { OnOk result ((earlier : List ControlTransfer) → Knows earlier self.old.conversations → Knows (option_to_list over ++ earlier) self.new.conversations
            × (self.new.devices.items ≡ met_in earlier over self.old.devices.items)
            × Appends (W.contents w.old) (W.contents w.new) (over_lines self.old.selection self.old.tally.origin earlier over)) }
        ensures read { OnOk result ((transfers : List ControlTransfer) → HasCurrent transfers self.old.readings → HasCurrent (transfers ++ option_to_list over) self.new.readings) }
        ensures replaced { self.new.replaced ≡ replaced_in over self.old.replaced }
        ensures observer { self.new.observer ≡ self.old.observer }
        ensures tally { self.new.tally ≡ self.old.tally }
        ensures selection { self.new.selection ≡ self.old.selection }
        ensures first { self.new.first ≡ self.old.first }
    {
        match over {
            Some(transfer) => self.take_over(transfer, w),
            None => Ok(()),
        }
    }

    /// Takes a transfer that is over.
    fn take_over<W: Write>(&mut self, transfer: ControlTransfer, w: &mut W) -> Result<(), OutFault>
        ensures found { OnOk result ((earlier : List ControlTransfer) → Knows earlier self.old.conversations → Knows (transfer ∷ earlier) self.new.conversations
            × (self.new.devices.items ≡ met (Some (address_of transfer)) (length (findings earlier transfer)) self.old.devices.items)
            × Appends (W.contents w.old) (W.contents w.new) (lines_of self.old.selection self.old.tally.origin transfer (findings earlier transfer))) }
        ensures read { OnOk result ((transfers : List ControlTransfer) → HasCurrent transfers self.old.readings → HasCurrent (transfers ++ transfer ∷ []) self.new.readings) }
        ensures replaced { self.new.replaced ≡ replaced_with transfer self.old.replaced }
        ensures observer { self.new.observer ≡ self.old.observer }
        ensures tally { self.new.tally ≡ self.old.tally }
        ensures selection { self.new.selection ≡ self.old.selection }
        ensures first { self.new.first ≡ self.old.first }
    {
        self.replaced = replaced_with(&transfer, self.replaced);
        let found = self.conversations.take(&transfer)?;
        self.say(&transfer, &found, w)?;
        let device = Some(DeviceAddress::of(&transfer));
        meet(&mut self.devices, device, found.len())?;
        self.readings.take(transfer)?;
        Ok(())
    }

    /// Takes what is wrong in packets: writes its lines, and counts it.
    fn take_findings<W: Write>(&mut self, found: &[BusFinding], w: &mut W) -> Result<(), OutFault>
        ensures written { OnOk result (Appends (W.contents w.old) (W.contents w.new) (bus_lines self.old.selection self.old.tally.origin found.now)) }
        ensures met { OnOk result (self.new.devices.items ≡ met_all found.now self.old.devices.items) }
        ensures others { self.new ≡ record self.old { devices = self.new.devices } }
    {
        self.say_findings(found, w)?;
        meet_all(&mut self.devices, found)?;
        Ok(())
    }

    /// Writes the lines of what is wrong in packets.
    fn say_findings<W: Write>(&self, found: &[BusFinding], w: &mut W) -> Result<(), OutFault>
        ensures { OnOk result (Appends (W.contents w.old) (W.contents w.new) (bus_lines self.now.selection self.now.tally.origin found.now)) }
    {
        let mut text = Text::new(self.alloc);
        put_bus_findings(&mut text, &self.selection, self.tally.origin, found)?;
        write_all(w, text.as_bytes())
    }

    /// Writes the lines of a transfer in which this was found.
    fn say<W: Write>(
        &self,
        transfer: &ControlTransfer,
        found: &[Finding],
        w: &mut W,
    ) -> Result<(), OutFault>
        ensures { OnOk result (Appends (W.contents w.old) (W.contents w.new) (lines_of self.now.selection self.now.tally.origin transfer.now found.now)) }
    {
        let mut text = Text::new(self.alloc);
        put_wanted(
            &mut text,
            &self.selection,
            self.tally.origin,
            transfer,
            found,
        )?;
        write_all(w, text.as_bytes())
    }

    /// Whether a frame was taken.
    pub fn has_begun(&self) -> bool
        ensures { result ≡ is_some self.now.tally.link }
    {
        self.tally.link.is_some()
    }

    /// The descriptors of a device that came, as those of [`DeviceReadings::file`].
    ///
    /// # Errors
    ///
    /// What lacks for a dump, or out of memory.
    pub fn file(&self, device: DeviceAddress) -> Result<DeviceFile, FileLack>
        ensures ok { IfOk result (IsMade self.now.readings.readings.kept.items (asked_at device)) }
        ensures err { IfErr result (IsLack self.now.readings.readings.kept.items (asked_at device)) }
    {
        self.readings.file(self.alloc, device.bus, device.device)
    }

    /// Whether something was found of a device whose lines are wanted.
    pub fn finds_any(&self) -> bool
        ensures { result ≡ finds_any self.now.selection self.now.devices.items }
    {
        finds_any(&self.selection, &self.devices)
    }

    /// Writes the last lines, where this many bytes are left of a part of the file that isn't whole and begins at this place.
    ///
    /// # Errors
    ///
    /// Those of [`Teller::take`].
    pub fn finish<W: Write>(&self, place: u64, left: u64, w: &mut W) -> Result<(), OutFault>
        ensures { OnOk result (Appends (W.contents w.old) (W.contents w.new) (last_lines self.now.selection self.now.tally self.now.observer.decoded self.now.replaced self.now.observer.controls.held.items self.now.observer.transfers.pipes.held.held.items self.now.readings.readings.kept.items self.now.devices.items place left)) }
    {
        let mut text = Text::new(self.alloc);
        self.put_last_lines(&mut text, place, left)?;
        write_all(w, text.as_bytes())
    }

    #[tactic(auto, unfolding(crate::specs::Recordings::last_lines))]
    fn put_last_lines(&self, text: &mut Text, place: u64, left: u64) -> Result<(), AllocError>
        ensures { OnOk result (text.new ≡ text.old ++ last_lines self.now.selection self.now.tally self.now.observer.decoded self.now.replaced self.now.observer.controls.held.items self.now.observer.transfers.pipes.held.held.items self.now.readings.readings.kept.items self.now.devices.items place left) }
    {
        let origin = self.tally.origin;
        put_open(text, &self.selection, origin, self.observer.unended())?;
        put_open(
            text,
            &self.selection,
            origin,
            self.observer.unended_on_bus(),
        )?;
        put_counts(text, &self.tally, self.observer.decoded(), self.replaced)?;
        put_cut(text, place, left)?;
        put_devices(
            text,
            &self.selection,
            self.readings.as_slice(),
            &self.devices,
        )
    }
}

/// Puts the lines of those whose end didn't come.
fn put_open(
    text: &mut Text,
    selection: &Selection,
    origin: u64,
    opens: &[OpenTransfer],
) -> Result<(), AllocError>
    ensures { OnOk result (text.new ≡ text.old ++ open_lines selection.now origin opens.now) }
{
    for open in opens {
        put_wanted(text, selection, origin, &open.transfer, &[])?;
    }
    Ok(())
}

/// Puts the lines of a transfer in which this was found, if they are wanted.
#[tactic(auto, unfolding(crate::specs::Recordings::lines_of))]
fn put_wanted(
    text: &mut Text,
    selection: &Selection,
    origin: u64,
    transfer: &ControlTransfer,
    found: &[Finding],
) -> Result<(), AllocError>
    ensures { OnOk result (text.new ≡ text.old ++ lines_of selection.now origin transfer.now found.now) }
{
    let device = Some(DeviceAddress::of(transfer));
    if !selection.wants(origin, device, time_of(transfer)) {
        return Ok(());
    }
    put_transfer(text, selection.data, origin, transfer)?;
    put_findings(text, found)
}
