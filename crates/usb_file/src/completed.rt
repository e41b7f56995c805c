//! A dump made a file: a text in each place that names a string.
ghost use Rattle.std.specs.Prelude.{◌≡◌, IfErr, IfOk, List, ℕ, map};
ghost use Rattle.usb_file_data.specs.File.{File};
ghost use Rattle.usb_file.specs.Completed.{IsCompleted, completed, index_text};
ghost use Rattle.usb_file_data.specs.Inputs.{Dump, DeviceRefused};

use crate::file_reader::{Form, read_file_or_dump};
use std::alloc::{AllocError, Global};
use usb_file_data::{DescriptorFile, FileFault, FileWhy, Strings, named};
use usb_set::Sequence;

/// The language of the texts: English (United States).
const ENGLISH: u16 = 0x0409;

/// The file that the bytes are; or, where they are a dump, the file that is made of it: with the text `string 3` for
/// index 3 and so on, in the language 0409.
///
/// ```rust
/// // A dump that names one string, iProduct.
/// let mut bytes = [18, 1, 0, 2, 0, 0, 0, 64, 0x34, 0x12, 0x78, 0x56, 0, 1, 0, 3, 0, 0];
/// let file = read_completed(alloc, &bytes)?;
/// assert_eq!(rt; file.string(3, 0x0409).map(|units| units.len()), Some(8));
/// ```
///
/// # Errors
///
/// Where the bytes are neither, the fault of [`read_file`](crate::read_file); or `Memory` where a part starts.
pub fn read_completed(alloc: Global, b: &[u8]) -> Result<DescriptorFile, FileFault>
    ensures ok { IfOk result (λ f. IsCompleted f b.now) }
    // What is made has bytes.
    ensures file { IfOk result (λ f. (bytes : List ℕ) × File f bytes) }
    ensures err { IfErr result (λ fault. DeviceRefused b.now fault.at fault.why) }
{
    let (file, form) = read_file_or_dump(alloc, b)?;
    match form {
        Form::File => Ok(file),
        Form::Dump => match complete(alloc, file) {
            Ok(file) => Ok(file),
            Err(_) => Err(FileFault::new(b.len(), FileWhy::Memory)),
        },
    }
}

/// The file that is made of a dump.
fn complete(alloc: Global, dump: DescriptorFile) -> Result<DescriptorFile, AllocError>
    ensures { IfOk result (λ f. f ≡ completed dump) }
{
    let mut languages = Sequence::new(alloc);
    languages.push(ENGLISH)?;
    let texts = index_texts(alloc, &named(alloc, &dump)?)?;
    let mut file = dump;
    file.strings = Some(Strings { languages, texts });
    Ok(file)
}

/// The texts for these indices.
fn index_texts(alloc: Global, indices: &[u8]) -> Result<Sequence<Sequence<u16>>, AllocError>
    ensures { IfOk result (λ texts. texts ≡ map index_text indices.now) }
{
    let mut texts = Sequence::new(alloc);
    for index in indices {
        texts.push(index_text(alloc, *index)?)?;
    }
    Ok(texts)
}

/// The text for an index, in units.
fn index_text(alloc: Global, index: u8) -> Result<Sequence<u16>, AllocError>
    ensures { IfOk result (λ units. units ≡ index_text index) }
{
    let text = format!(in alloc; "string {index}")?;
    let mut units = Sequence::new(alloc);
    for byte in text.as_bytes() {
        units.push(u16::from(*byte))?;
    }
    Ok(units)
}
