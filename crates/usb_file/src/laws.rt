//! What holds of files and faults, whoever reads the bytes. Each law is the contract of a function that
//! does nothing.
ghost use Rattle.std.specs.Prelude.{◌≡◌, ℕ, List, length};
ghost use Rattle.usb_fields.specs.Bytes.{AreBytes};
ghost use Rattle.usb_file_data.specs.File.{File};
ghost use Rattle.usb_file_data.specs.FileFaults.{FileFaulty, FileOrFault};
ghost use Rattle.usb_file.specs.inside.Reading.{PartLaws};
ghost use Rattle.usb_file_data.specs.Inputs.{Dump, InputFaulty, IsInput, InputOrFault};
ghost use Rattle.usb_file_data.specs.Likeness.{DumpsAreSeen, DumpsEndAtFaults};
ghost use Rattle.usb_file_data.specs.declared.file.Input.{Input};
ghost use Rattle.usb_file_data.specs.declared.fault.InputFault.{InputFault};
ghost use Rattle.usb_file_data.specs.declared.fault.FileWhy.TheVariants as files;
ghost use Rattle.usb_file_data.specs.declared.file.DescriptorFile.{DescriptorFile};
ghost use Rattle.usb_file_data.specs.declared.fault.FileWhy.{FileWhy};

use usb_fields::laws::{device_descriptor_round_trip, qualifier_round_trip, units_round_trip};
use usb_set::laws::{one_judgement, one_layout};

/// Bytes are those of one file at most, and a file has one list of bytes at most.
pub fn one_file()
    ensures read { (b : List ℕ) (f g : DescriptorFile) → File f b → File g b → f ≡ g }
    ensures written { (f : DescriptorFile) (b d : List ℕ) → File f b → File f d → b ≡ d }
{
    part_laws();
}

/// Of all bytes exactly one holds: they are those of a file, or they show one fault at one place.
pub fn one_answer()
    ensures some { (b : List ℕ) → AreBytes b → FileOrFault b }
    ensures one_fault { (b : List ℕ) (p q : ℕ) (v w : FileWhy) → AreBytes b → FileFaulty b p v → FileFaulty b q w → (p ≡ q) × (v ≡ w) }
    ensures not_both { (b : List ℕ) (f : DescriptorFile) (p : ℕ) (w : FileWhy) → File f b → FileFaulty b p w → ⊥ }
{
    part_laws();
}

/// Of all bytes exactly one holds: they are one set, one file or one dump, or they show one fault.
pub fn one_input()
    ensures some { (b : List ℕ) → AreBytes b → InputOrFault b }
    ensures one { (b : List ℕ) (v w : Input) → IsInput v b → IsInput w b → v ≡ w }
    ensures one_fault { (b : List ℕ) (v w : InputFault) → AreBytes b → InputFaulty b v → InputFaulty b w → v ≡ w }
    ensures not_both { (b : List ℕ) (v : Input) (w : InputFault) → IsInput v b → InputFaulty b w → ⊥ }
{
    part_laws();
}

/// No dump is a file: it ends right after the sets of the device, where the language list comes next.
pub fn no_dump_is_a_file()
    ensures file { (b : List ℕ) (f g : DescriptorFile) → Dump f b → File g b → ⊥ }
    ensures fault { (b : List ℕ) (f : DescriptorFile) → Dump f b → FileFaulty b (length b) files.Truncated }
{
    part_laws();
}

/// If [`likeness_of`](usb_file_data::likeness_of) reports a dump and `n` more bytes, the bytes before the fault are a dump and `n`
/// bytes follow it; before a wrong qualifier they may be a file that names no string. Each dump is reported after which a string descriptor is expected and isn't there.
pub fn a_dump_ends_at_its_fault()
    ensures ends { DumpsEndAtFaults }
    ensures seen { DumpsAreSeen }
{}

/// The laws of the parts of a file, from the crates that read and write these.
pub(crate) fn part_laws()
    ensures { PartLaws }
{
    device_descriptor_round_trip();
    qualifier_round_trip();
    units_round_trip();
    one_layout();
    one_judgement();
}
