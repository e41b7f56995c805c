//! An enumeration that is logged.
ghost use Rattle.std.specs.Prelude.{◌≡◌, [], IfErr, IfOk, OnOk};
ghost use Rattle.usb_fields.specs.Packets.{reply_of};
ghost use Rattle.usb_bus.specs.Asked.{asked_of};
ghost use Rattle.usb_bus.specs.Enumerate.{EndsWell, chosen_pair};
ghost use Rattle.usb_bus.specs.Log.{WritesLog, WritesLogFrom, WritesLogLess, WritesLogLessFrom};
ghost use Rattle.usb_bus.specs.inside.Seeing.{HasSeen, done_lines};

use crate::data::{data_of, put_below};
use crate::enumeration::{Run, step_seen};
use crate::fate::Fate;
use crate::lemmas::all_is_asked;
use crate::step_lines::{Before, Turn, put_answered, put_done, put_reset};
use crate::steps::{Observer, Steps, run_with};
use crate::tally::write_tally;
use std::alloc::{AllocError, Global};
use std::io::Write;
use usb_device::{Description, Device, Encoded};
use usb_fields::Answer;
use usb_host::{Choice, Host, Limits, Why};
use usb_text::{OutFault, Text, write_all};

/// The lines of a step, while they are put; `BRIEF` leaves those of data out.
#[derive(Drop)]
pub(crate) struct Log<const BRIEF: bool> {
    alloc: Global,
    pub(crate) before: Before,
    pub(crate) turn: Turn,
    pub(crate) lines: Text,
    /// The end of a transaction's line, and the data below it: they go after what the device has then.
    pub(crate) below: Text,
    /// Why the attempt is given up, if it is.
    pub(crate) cause: Option<Why>,
    /// Whether there was memory for them.
    pub(crate) is_whole: bool,
}

impl<const BRIEF: bool> Log<BRIEF> {
    /// Before the first step.
    pub(crate) fn new(alloc: Global) -> Log<BRIEF> {
        Log {
            alloc,
            before: Before {
                step: None,
                transfer: None,
            },
            turn: Turn {
                number: 0,
                fate: Fate::Pass,
            },
            lines: Text::new(alloc),
            below: Text::new(alloc),
            cause: None,
            is_whole: true,
        }
    }

    /// A step begins, before which the host is this.
    pub(crate) fn begin(&mut self, before: Before, turn: Turn)
        ensures before { self.new.before ≡ before }
        ensures turn { self.new.turn ≡ turn }
        ensures lines { self.new.lines ≡ [] }
    {
        self.before = before;
        self.turn = turn;
        self.lines.clear();
    }

    /// Puts what is known of a transaction once the host has taken what came of this answer.
    pub(crate) fn put_answered(
        &mut self,
        answer: Answer<'_>,
        came: Answer<'_>,
        host: &Host,
    ) -> Result<(), AllocError>
        ensures { OnOk result (HasSeen BRIEF self.old.turn.number self.old.turn.fate self.old.before.step self.old.before.transfer (reply_of answer.entry) (reply_of came.entry) host.now.phase self.old.lines self.new.lines self.new.below self.new.cause) }
    {
        let (Some(step), Some(transfer)) = (self.before.step, self.before.transfer) else {
            return Ok(());
        };
        self.below.clear();
        let sent = transfer.next();
        put_below(&mut self.below, BRIEF, data_of(&sent, answer))?;
        self.cause = put_answered(
            self.alloc,
            &mut self.lines,
            step,
            transfer,
            self.turn,
            answer,
            came,
            host,
        )?;
        Ok(())
    }

    /// Puts the rest of the lines of a step that is done: of a transaction, or else of a reset.
    pub(crate) fn put_done(
        &mut self,
        is_transaction: bool,
        host: &Host,
        device: &Device<'_>,
    ) -> Result<(), AllocError>
        ensures { OnOk result (self.new.lines ≡ done_lines device.now.description.file.device.packet is_transaction self.old.lines self.old.below self.old.cause host.now device.now.device) }
    {
        if is_transaction {
            return put_done(
                self.alloc,
                &mut self.lines,
                &self.below,
                self.cause,
                host,
                device,
            );
        }
        self.lines.clear();
        put_reset(&mut self.lines, u64::from(host.attempts()))
    }
}

impl<const BRIEF: bool> Observer for Log<BRIEF> {
    ghost use Rattle.std.specs.Prelude.{◌≡◌, true};
    ghost use Rattle.usb_bus.specs.inside.Seeing.{HasSeen};

    ghost sees = { λ old answer came host new. new.is_whole ≡ true → HasSeen BRIEF old.turn.number old.turn.fate old.before.step old.before.transfer answer came host.phase old.lines new.lines new.below new.cause };

    fn answered(&mut self, answer: Answer<'_>, came: Answer<'_>, host: &Host) {
        self.is_whole = self.put_answered(answer, came, host).is_ok();
    }
}

/// The lines of each step are written.
impl<W: Write, const BRIEF: bool> Steps<W> for Log<BRIEF> {
    ghost use Rattle.std.specs.Io.KnownBytes.{Appends};
    ghost use Rattle.usb_bus.specs.Log.{CutsOff, step_lines};

    type Fault = OutFault;

    ghost does = { λ f fates x y n from to. Appends (W.contents from) (W.contents to) (step_lines BRIEF f fates n x y) };

    ghost breaks = { λ f fates x y n from to fault. CutsOff fault (W.contents from) (W.contents to) (step_lines BRIEF f fates n x y) };

    fn step(
        &mut self,
        host: &mut Host,
        device: &mut Device<'_>,
        fates: &[Fate],
        transactions: u64,
        w: &mut W,
    ) -> Result<Option<u64>, OutFault> {
        let before = Before::of(host);
        let turn = Turn {
            number: transactions.saturating_add(1),
            fate: Fate::at(fates, u128::from(transactions)),
        };
        let is_transaction = before.transfer.is_some();
        self.begin(before, turn);
        let Some(now) = step_seen(host, device, fates, transactions, self) else {
            return Ok(None);
        };
        if !self.is_whole {
            return Err(OutFault::Memory);
        }
        self.put_done(is_transaction, host, device)?;
        write_all(w, self.lines.as_bytes())?;
        Ok(Some(now))
    }
}

/// Enumerates a device with this description as [`enumerate`](crate::enumerate) does, and writes a log of it: a line of
/// headings, a line for each bus reset and each transaction, in their order, one for each transfer before its first transaction, and
/// one for each attempt that is given up. The last line counts by their fates the transactions that have lost something, and those in
/// which the device was not ready. A brief log has no lines of data below those of transactions.
///
/// The lines of a step are written as soon as it is done, and none are kept. What the other promises say of the
/// run is what `enumerate` says.
///
/// ```rust
/// let mut log = Vec::new(alloc);
/// let fates = [Fate::LostDown; 9];
/// let run = enumerate_logged(alloc, &description, Limits::new(1, 16, 3)?, &fates, false, &mut log)?;
/// assert_eq!(rt; run.transactions, 9);
/// assert!(rt; log.ends_with(b"fates: losses 9, busy 0\n"));
/// assert!(rt; log.starts_with(b"no.   f packets (lost) data             host                device\nattempt 1: bus reset\n"));
/// ```
///
/// # Errors
///
/// `Write` where the writer failed, and `Memory` where the lines of a step took more memory than there is. The
/// enumeration ends then, if it goes on. Its log was written up to that step, or to the last line. The lines of that step, or that
/// one, are cut off before their last byte; if an allocation failed, none of them is written. Out of memory in the host is no error: it ends the enumeration.
pub fn enumerate_logged<W: Write>(
    alloc: Global,
    d: &Description,
    limits: Limits,
    fates: &[Fate],
    brief: bool,
    w: &mut W,
) -> Result<Run, OutFault>
    ensures log { IfOk result (WritesLog brief d.now.file d.now.speed limits fates.now (W.contents w.old) (W.contents w.new)) }
    ensures err { IfErr result (WritesLogLess brief d.now.file d.now.speed limits fates.now (W.contents w.old) (W.contents w.new)) }

    // What `enumerate` promises of the run.
    ensures ends_well { IfOk result (EndsWell d.now.file limits fates.now) }
{
    enumerate_encoded_logged(alloc, d.encoded(), limits, fates, brief, w)
}

/// The same [`enumerate_logged`] of a description without its tree.
///
/// # Errors
///
/// Those of [`enumerate_logged`].
pub fn enumerate_encoded_logged<W: Write>(
    alloc: Global,
    d: &Encoded,
    limits: Limits,
    fates: &[Fate],
    brief: bool,
    w: &mut W,
) -> Result<Run, OutFault>
    ensures log { IfOk result (WritesLog brief d.now.file d.now.speed limits fates.now (W.contents w.old) (W.contents w.new)) }
    ensures err { IfErr result (WritesLogLess brief d.now.file d.now.speed limits fates.now (W.contents w.old) (W.contents w.new)) }
    ensures ends_well { IfOk result (EndsWell d.now.file limits fates.now) }
{
    all_is_asked(d);
    enumerate_logged_with(alloc, d, limits, Choice::everything(), fates, brief, w)
}

/// The same by a host that asks for so much, as [`enumerate_with`](crate::enumerate_with) does.
///
/// # Errors
///
/// Those of [`enumerate_logged`].
pub fn enumerate_logged_with<W: Write>(
    alloc: Global,
    d: &Encoded,
    limits: Limits,
    choice: Choice,
    fates: &[Fate],
    brief: bool,
    w: &mut W,
) -> Result<Run, OutFault>
    ensures log { IfOk result (WritesLogFrom (chosen_pair limits d.now.speed choice) brief d.now.file fates.now (W.contents w.old) (W.contents w.new)) }
    ensures err { IfErr result (WritesLogLessFrom (chosen_pair limits d.now.speed choice) brief d.now.file fates.now (W.contents w.old) (W.contents w.new)) }
    ensures ends_well { IfOk result (EndsWell (asked_of choice d.now.file) limits fates.now) }
{
    match brief {
        true => write_log::<true, W>(alloc, d, limits, choice, fates, w),
        false => write_log::<false, W>(alloc, d, limits, choice, fates, w),
    }
}

fn write_log<const BRIEF: bool, W: Write>(
    alloc: Global,
    d: &Encoded,
    limits: Limits,
    choice: Choice,
    fates: &[Fate],
    w: &mut W,
) -> Result<Run, OutFault>
    ensures log { IfOk result (WritesLogFrom (chosen_pair limits d.now.speed choice) BRIEF d.now.file fates.now (W.contents w.old) (W.contents w.new)) }
    ensures err { IfErr result (WritesLogLessFrom (chosen_pair limits d.now.speed choice) BRIEF d.now.file fates.now (W.contents w.old) (W.contents w.new)) }
    ensures ends_well { IfOk result (EndsWell (asked_of choice d.now.file) limits fates.now) }
{
    let mut log = Log::<BRIEF>::new(alloc);
    let run = run_with(alloc, d, limits, choice, fates, &mut log, w)?;
    write_tally(alloc, fates, run.transactions, w)?;
    Ok(run)
}
