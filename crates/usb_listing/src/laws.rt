//! What holds of listings. Each law is the contract of a function that does nothing.
ghost use Rattle.std.specs.Prelude.{◌≡◌, ◌≤◌, ◌∷◌, ◌++◌, [], ℕ, List, length, false};
ghost use Rattle.std.specs.List.{flat_map};
ghost use Rattle.usb_set.specs.Descriptors.{Descriptor, configuration_descriptor};
ghost use Rattle.usb_set.specs.Layout.{has_typed_raw, later_descriptors, set_descriptors};
ghost use Rattle.usb_set.specs.declared.tree.Configuration.{Configuration};
ghost use Rattle.usb_file_data.specs.File.{File};
ghost use Rattle.usb_file_data.specs.declared.file.DescriptorFile.{DescriptorFile};
ghost use Rattle.usb_listing.specs.Listing.{file_lines, set_lines};
ghost use Rattle.usb_listing.specs.Table.{descriptor_line};

/// The lines of a set are those of its descriptors, each by the row of its type. None of the raw descriptors may have
/// a type that a set reads.
pub fn lines_are_of_descriptors()
    ensures { (c : Configuration) (total : ℕ) → has_typed_raw c ≡ false → set_lines c ≡ flat_map descriptor_line (set_descriptors c total) }
{}

/// The lines of a set with one more descriptor are those of the set, and the line of this one after them.
pub fn one_more_line()
    ensures { (c d : Configuration) (item : Descriptor) → has_typed_raw c ≡ false → has_typed_raw d ≡ false
        → configuration_descriptor d 0 ≡ configuration_descriptor c 0 → later_descriptors d ≡ later_descriptors c ++ item ∷ []
        → set_lines d ≡ set_lines c ++ descriptor_line item }
{}

/// The most bytes of a text that is read back: no file's listing has more.
pub const LISTING_LIMIT: usize = 268_435_456;

/// Each file that has bytes has a listing within the limit.
pub fn listings_fit()
    ensures { (f : DescriptorFile) (b : List ℕ) → File f b → length (file_lines f) ≤ LISTING_LIMIT }
{}
