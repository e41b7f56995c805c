//! What holds of texts, files and faults, whoever reads the text. Each law is the contract of a function
//! that does nothing.
ghost use Rattle.std.specs.Prelude.{◌≡◌, ◌≤◌, ◌⊎◌, ℕ, List};
ghost use Rattle.usb_file_data.specs.File.{File};
ghost use Rattle.usb_file_data.specs.declared.file.DescriptorFile.{DescriptorFile};
ghost use Rattle.usb_listing.specs.Listing.{file_lines};
ghost use Rattle.usb_listing.specs.declared.fault.ListWhy.{ListWhy};
ghost use Rattle.usb_listing.specs.declared.fault.ListWhy.TheVariants as whys;
ghost use Rattle.usb_listing.specs.Listings.{ListingOrFault, IsLineStart, ListFaulty, Lists, MayWant};

/// A text is the listing of one file at most, and a file has one listing at most.
pub fn one_file()
    ensures read { (text : List ℕ) (f g : DescriptorFile) → Lists text f → Lists text g → f ≡ g }
    ensures listed { (f : DescriptorFile) (s t : List ℕ) → Lists s f → Lists t f → s ≡ t }
{}

/// Files with one listing have the same bytes: what is listed of a file is parsed to the bytes of that file.
pub fn listings_go_round()
    ensures { (f g : DescriptorFile) (b d : List ℕ) → File f b → File g d → file_lines f ≡ file_lines g → b ≡ d }
{
    one_file();
}

/// Of all texts exactly one holds: they are the listing of a file, or they show one fault at one line.
pub fn one_answer()
    ensures some { (text : List ℕ) → ListingOrFault text }
    ensures one_fault { (text : List ℕ) (m n : ℕ) (v w : ListWhy) → ListFaulty text m v → ListFaulty text n w → (m ≡ n) × (v ≡ w) }
    ensures not_both { (text : List ℕ) (f : DescriptorFile) (line : ℕ) (why : ListWhy) → Lists text f → ListFaulty text line why → ⊥ }
{}

/// No line after the first one at fault is reached: out of memory is reported at it or at one before it. At that line
/// itself it is reported only in place of a wrong field or a set that is too long.
pub fn none_after_the_fault()
    ensures reached { (text : List ℕ) (m n : ℕ) (why : ListWhy) → IsLineStart text m → ListFaulty text n why → m ≤ n }
    ensures judged { (text : List ℕ) (n : ℕ) (why : ListWhy) → MayWant text n → ListFaulty text n why → (why ≡ whys.Field) ⊎ (why ≡ whys.TooLong) }
{}
