//! What holds of every hexadecimal text.
ghost use Rattle.usb_hex.specs.Hexadecimal.{HasOneReading, IsNoDescriptor, IsReadAsIs};

/// No hexadecimal text begins with 18, and none has 2 or 7 as its second byte, as the bytes of descriptors do.
pub fn hexadecimal_text_is_no_descriptor()
    ensures { IsNoDescriptor }
{}

/// No text has two readings.
pub fn hexadecimal_text_has_one_reading()
    ensures { HasOneReading }
{}

/// A text that is hexadecimal without the forms of sources has the bytes that it has so. What 0.1.0 read so is read so
/// still, but for what could be read in two ways: more than two digits after a mark, groups of which nothing says which
/// byte is first, words after a leading blank, eight bits also after `0b`, offsets after blanks, before a colon without
/// one or before bytes without one, counted numbers, the numbers of columns, zeros before one blank, and characters that aren't
/// those of the bytes before them. The letters of `db 0x12` are no byte any more.
pub fn hexadecimal_text_is_read_as_it_is()
    ensures { IsReadAsIs }
{}
