//! What holds of texts with comments, whoever reads the text: what is kept of them is such a text as `reader_laws`
//! speaks of. Each law is the contract of a function that does nothing.
ghost use Rattle.std.specs.Prelude.{◌≡◌, ◌≤◌, ℕ, List};
ghost use Rattle.usb_file_data.specs.File.{File};
ghost use Rattle.usb_file_data.specs.declared.file.DescriptorFile.{DescriptorFile};
ghost use Rattle.usb_listing.specs.Listing.{file_lines};
ghost use Rattle.usb_listing.specs.Comments.{AtKeptLine, CommentedFaulty, CommentedOrFault, IsUncommented, lines_before, uncommented, whole_lines};
ghost use Rattle.usb_listing.specs.Listings.{IsLineStart, Lists};
ghost use Rattle.usb_listing.specs.declared.fault.ListWhy.{ListWhy};

use crate::reader_laws;

/// What is kept of a text is the listing of one file at most, and a file has one listing at most, but for what is
/// dropped.
pub fn one_file()
    ensures read { (text : List ℕ) (f g : DescriptorFile) → Lists (uncommented text) f → Lists (uncommented text) g → f ≡ g }
    ensures listed { (f : DescriptorFile) (s t : List ℕ) → Lists (uncommented s) f → Lists (uncommented t) f → uncommented s ≡ uncommented t }
{
    reader_laws::one_file();
}

/// A text without comments, empty lines and carriage returns is read as it is, and each of its lines has its own
/// number. So is what is written of a file.
pub fn nothing_dropped()
    ensures text { (text : List ℕ) → IsUncommented text → uncommented text ≡ text }
    ensures numbers { (text : List ℕ) (kept : ℕ) → IsUncommented text → lines_before (whole_lines text) kept ≡ kept }
    ensures written { (f : DescriptorFile) (b : List ℕ) → File f b → IsUncommented (file_lines f) }
{}

/// Of all texts exactly one holds: what is kept is the listing of a file, or it shows one fault at one line of the text.
pub fn one_answer()
    ensures some { (text : List ℕ) → CommentedOrFault text }
    ensures one_fault { (text : List ℕ) (m n : ℕ) (v w : ListWhy) → CommentedFaulty text m v → CommentedFaulty text n w → (m ≡ n) × (v ≡ w) }
    ensures not_both { (text : List ℕ) (f : DescriptorFile) (line : ℕ) (why : ListWhy) → Lists (uncommented text) f → CommentedFaulty text line why → ⊥ }
{}

/// No line after the first one at fault is reached: out of memory is reported at it or at one before it.
pub fn none_after_the_fault()
    ensures { (text : List ℕ) (m n : ℕ) (why : ListWhy) → AtKeptLine text m (λ kept. IsLineStart (uncommented text) kept) → CommentedFaulty text n why → m ≤ n }
{}
