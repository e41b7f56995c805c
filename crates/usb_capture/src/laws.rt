//! What holds of every capture file. The functions of these laws do nothing: their contracts are the laws.
ghost use Rattle.std.specs.Prelude.{◌≡◌, ◌≢◌, ◌++◌, ◌∷◌, ◌<◌, ℕ, List, [], Some, None, true, false, length, map};
ghost use Rattle.std.specs.List.{All, AllByRecursion, Contains, find, flat_map};
ghost use Rattle.usb_fields.specs.declared.setup.Setup.{Setup};
ghost use Rattle.usb_capture.specs.declared.asked.Asked.{Asked};
ghost use Rattle.usb_capture.specs.declared.control_transfer.ControlTransfer.{ControlTransfer};
ghost use Rattle.usb_capture.specs.declared.event.Event.{Event};
ghost use Rattle.usb_capture.specs.declared.fault.CaptureFault.{CaptureFault};
ghost use Rattle.usb_capture.specs.declared.frame.Frame.{Frame};
ghost use Rattle.usb_capture.specs.declared.pcap.Form.{Form};
ghost use Rattle.usb_capture.specs.declared.reader.CaptureReader.{CaptureReader};
ghost use Rattle.usb_capture.specs.declared.data_toggle.Part.{Part};
ghost use Rattle.usb_capture.specs.declared.ending.Ending.{Ending};
ghost use Rattle.usb_capture.specs.declared.recorded_packet.RecordedPacket.{RecordedPacket};
ghost use Rattle.usb_capture.specs.declared.transaction.Transaction.{Transaction};
ghost use Rattle.usb_capture.specs.BusTransfers.{Goes, Going, ended_so, going_from, part_of, request_of, transfers_in};
ghost use Rattle.usb_capture.specs.DeviceFiles.{data_of, parts};
ghost use Rattle.usb_capture.specs.DeviceReadings.{current_after};
ghost use Rattle.usb_capture.specs.Files.{AreParts, IsRefused, bytes_of, frames_of, start, state_after, whole};
ghost use Rattle.usb_capture.specs.Findings.{asked_of, is_of_another};
ghost use Rattle.usb_capture.specs.TransferFindings.{findings};
ghost use Rattle.usb_capture.specs.Pcap.{IsHeader, IsPartial, IsRecord, frame_of};
ghost use Rattle.usb_capture.specs.Reading.{IsRead};
ghost use Rattle.usb_capture.specs.Readings.{is_again, is_reading, kept_after};
ghost use Rattle.usb_capture.specs.Recordings.{AreRecorded, transactions_in};
ghost use Rattle.usb_capture.specs.Transfers.{begun, ended, is_of_default_pipe, over_in};

/// Whoever has read whole parts, as blocks of pcapng, and less than another has had the frames in these, and has that
/// rest, however the bytes were cut into pieces.
pub fn each_part_is_read()
    ensures frames { (parts : List (List ℕ)) (rest : List ℕ) (frames : List Frame) (reader : CaptureReader)
        → AreParts start parts → length rest < whole (state_after start parts).stage rest → IsRead (bytes_of parts ++ rest) frames reader
        → (frames ≡ frames_of start parts) × (reader.count ≡ length rest) }
{}

/// Bytes have one list of frames, or one fault at one place.
pub fn a_file_is_read_or_refused()
    ensures read { (all : List ℕ) (first second : List Frame) (one other : CaptureReader) → IsRead all first one → IsRead all second other
        → (first ≡ second) × (one.place ≡ other.place) × (one.count ≡ other.count) }
    ensures refused { (all : List ℕ) (first second : CaptureFault) (one other : ℕ) → IsRefused all first one → IsRefused all second other
        → (first ≡ second) × (one ≡ other) }
    ensures never_both { (all : List ℕ) (fault : CaptureFault) (place : ℕ) (frames : List Frame) (reader : CaptureReader)
        → IsRefused all fault place → IsRead all frames reader → ⊥ }
{}

/// Whoever has read a file header of pcap, whole records and less than another record has had the frames of these records,
/// and has that rest. What follows a file header is refused nowhere.
pub fn each_record_is_a_frame()
    ensures frames { (form : Form) (header : List ℕ) (records : List (List ℕ)) (rest : List ℕ) (frames : List Frame) (reader : CaptureReader)
        → IsHeader form header → AllByRecursion (IsRecord form.writer.order) records → IsPartial form.writer.order rest
        → IsRead ((header ++ bytes_of records) ++ rest) frames reader
        → (frames ≡ map (frame_of form) records) × (reader.count ≡ length rest) }
    ensures never_refused { (form : Form) (header rest : List ℕ) (fault : CaptureFault) (place : ℕ)
        → IsHeader form header → IsRefused (header ++ rest) fault place → ⊥ }
{}

/// A setup packet and the event that ends its transfer are a transfer with that packet, the data of both and that end, when
/// it comes to its end, whatever events of others come between.
pub fn a_request_and_its_answer_are_a_transfer()
    ensures { (before between : List Event) (request answer : Event) (setup : Setup)
        → is_of_default_pipe request ≡ true → request.setup ≡ Some setup
        → AllByRecursion (λ event. event.id ≢ request.id) between
        → is_of_default_pipe answer ≡ true → answer.id ≡ request.id → answer.setup ≡ None → answer.ends ≡ true
        → over_in [] ((before ++ request ∷ between) ++ answer ∷ []) ≡ over_in [] (before ++ request ∷ between) ++ ended answer (begun request setup) ∷ [] }
{}

/// What is kept of transfers came in them, from that device and whole: each is one of them and a reading.
pub fn what_is_kept_came()
    ensures { (transfers : List ControlTransfer) → All (λ t. Contains transfers t × (is_reading t ≡ true)) (kept_after [] transfers) }
{}

/// Of each descriptor of each device the last reading is kept: it is found there where no later transfer is of the same.
pub fn the_last_reading_is_kept()
    ensures { (before later : List ControlTransfer) (t : ControlTransfer) → is_reading t ≡ true
        → AllByRecursion (λ u. is_again t u ≡ false) later
        → find (is_again t) (kept_after [] (before ++ t ∷ later)) ≡ Some t }
{}

/// A SETUP with its request and the transaction that ends its transfer are a transfer with the packets of its data stage, each
/// once, and that end, whatever transactions with other addresses come between.
pub fn a_setup_and_its_status_are_a_transfer()
    ensures { (before between : List Transaction) (request answer : Transaction) (setup : Setup) (going : Going) (ending : Ending)
        → request_of request ≡ Some setup → request.to.address < 256
        → Goes request.to.address (going_from request setup) between going
        → answer.to.address ≡ request.to.address → request_of answer ≡ None → part_of going answer ≡ Part.Status ending
        → transfers_in ((before ++ request ∷ between) ++ answer ∷ []) ≡ transfers_in (before ++ request ∷ between) ++ ended_so answer ending going.transfer ∷ [] }
{}

/// Transactions with endpoint zero whose packets are written one after another, each with or without its data and its handshake,
/// are read back to that very list.
pub fn recorded_transactions_are_read()
    ensures { (transactions : List Transaction) (recorded : List RecordedPacket) → AreRecorded transactions recorded → transactions_in recorded ≡ transactions }
{}

/// What is found in a transfer doesn't depend on transfers of other devices, by which none of its bus is reset. The last transfer
/// before is the first in the list.
pub fn findings_are_of_one_device()
    ensures { (before between : List ControlTransfer) (t : ControlTransfer) → AllByRecursion (λ u. is_of_another t u ≡ true) between
        → findings (between ++ before) t ≡ findings before t }
{}

/// What is kept of the devices that have their addresses now came, from that device and whole.
pub fn what_is_current_came()
    ensures { (transfers : List ControlTransfer) → All (λ t. Contains transfers t × (is_reading t ≡ true)) (current_after [] transfers) }
{}

/// Each descriptor of a file or of a dump is a reading that is kept, of just the descriptor of that device that comes next there.
pub fn a_file_has_readings_of_its_device()
    ensures { (kept : List ControlTransfer) (asked : List Asked) (bytes : List ℕ) → parts kept asked ≡ Some bytes
        → (readings : List ControlTransfer) × (bytes ≡ flat_map data_of readings) × (map asked_of readings ≡ asked) × AllByRecursion (Contains kept) readings }
{}
