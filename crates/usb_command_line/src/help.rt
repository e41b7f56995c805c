//! What help says of the commands and of their options.

/// What the program does.
pub(crate) const ABOUT: &str = "Lists, checks, builds, explains and enumerates USB 2.0 descriptors";

/// The version of the program.
pub(crate) const VERSION: &str = "0.2.0-dev";

/// The usage line of `show`.
pub(crate) const SHOW_USAGE: &str = "usbdesc show [OPTIONS] < INPUT";

/// What `show` does.
pub(crate) const SHOW_ABOUT: &str =
    "Lists the configuration set or descriptor file on standard input, a line for each descriptor";

/// The text after the help of `show`.
pub(crate) const SHOW_HELP: &str = "\
Input:
  One configuration set where the second byte is 2 or 7: what a device answers when it is
  asked for a configuration. Else a descriptor file: the device descriptor, its configuration
  sets, a qualifier and its other-speed sets where there is another speed, and where a string
  is named the languages and the strings.

Dumps:
  With --any a dump is taken too: the device descriptor and its configuration sets alone, as
  Linux gives them in /sys/bus/usb/devices/*/descriptors.
  Linux lowers bNumConfigurations where it could not read a set, and gives only the prefix of
  a set that it could parse, while the set keeps its own wTotalLength. So the dump of a broken
  device ends early (file fault 6 at its end), or runs into the next set (file fault 2).
  'build' takes the listing of a dump once its languages and strings are added.

Hexadecimal text:
  With --hex the input is hexadecimal text, as 'explain' reads it, of such bytes.

Faults of a set, 'usbdesc: set fault N at PLACE', the place in bytes from 0:
  1  the first bLength is below 9
  2  the first descriptor is no configuration
  3  wTotalLength is below the first bLength
  4  a bLength is below 2
  5  a descriptor ends past wTotalLength
  6  a configuration inside a set
  7  an interface, endpoint or association descriptor is too short
  8  an endpoint before any interface
  9  the bytes end before the set does

Faults of a file, 'usbdesc: file fault N at PLACE':
  1  no device descriptor
  2  in a set, a fault of a set
  3  a set of the other kind
  4  no qualifier
  5  no string descriptor
  6  the bytes end before the file does
  7  bytes after the end of the file

Exit status:
  0  the listing is written
  2  the command line is invalid
  3  reading, the input or writing is at fault; standard error says how";

/// What `--any` of `show` says.
pub(crate) const SHOW_ANY_HELP: &str = "Takes a dump too";

/// The usage line of `check`.
pub(crate) const CHECK_USAGE: &str = "usbdesc check [OPTIONS] < INPUT";

/// What `check` does.
pub(crate) const CHECK_ABOUT: &str =
    "Checks the descriptor file on standard input by the rules of chapter 9, a line for each finding";

/// The text after the help of `check`.
pub(crate) const CHECK_HELP: &str = "\
Input:
  A descriptor file, as of 'show'. With --any also a configuration set alone or a dump. A set
  alone is the main part, or the other part where it is an other-speed configuration; V11
  does not apply to it. In a dump with bcdUSB 0300 or above V11 requires a bMaxPacketSize0
  of 9. With --hex the input is hexadecimal text, as 'explain' reads it, of such bytes.

Rules:
  V1   bNumInterfaces is not the count of distinct interface numbers
  V2   interfaces are not numbered from 0 without a gap
  V3   an alternate setting of an interface stands twice
  V4   an interface has no alternate setting 0
  V5   bNumEndpoints is not the count of the setting's endpoints
  V6   an endpoint has number 0, or one of bits 6 to 4 of bEndpointAddress is one
  V7   two endpoints of a setting have one address
  V8   two interfaces of a set claim one endpoint address
  V9   in bmAttributes of a configuration bit 7 is zero, or one of bits 4 to 0 is one
  V10  a part has no set, or a bConfigurationValue is 0 or stands twice
  V11  bMaxPacketSize0 is not 8, 16, 32 or 64, a subclass has no class, or bReserved is not 0
  V12  one of bits 15 to 13 of wMaxPacketSize is one
  V13  an association binds no interface, or one that the set does not have

Remarks:
  With --remarks a line for each remark follows, in the order of the bytes: 'R', the number of
  the remark in docs/formats.md, and the part and the numbers of its descriptor, as in the line
  of a finding. The speed of the device, --speed, is for remarks alone.

Exit status:
  0  no rule is broken; the line 'no findings' is written
  1  a rule is broken, or there is a remark; a line is written for each
  2  the command line is invalid
  3  reading, the input or writing is at fault; standard error says how";

/// What `--any` of `check` says.
pub(crate) const CHECK_ANY_HELP: &str = "Takes a configuration set alone or a dump too";

/// What `--remarks` says.
pub(crate) const REMARKS_HELP: &str =
    "Writes a line for each remark too, as 'explain' has them with a '?'";

/// The usage line of `build`.
pub(crate) const BUILD_USAGE: &str = "usbdesc build [OPTIONS] < INPUT";

/// What `build` does.
pub(crate) const BUILD_ABOUT: &str =
    "Builds the bytes of the descriptor file whose listing is on standard input";

/// The text after the help of `build`.
pub(crate) const BUILD_HELP: &str = "\
Input:
  The listing of a descriptor file, as 'show' writes it: a line for each descriptor, in the
  order of the file. With --comments it may have been written or changed by hand: a line that
  is empty or begins with '#' is dropped, and a carriage return at the end of a line.

Faults of a listing, 'usbdesc: listing fault N line LINE', the first line being 1:
  1  no whole line of printable text
  2  no known word
  3  the word can't stand here
  4  a field is missing, superfluous or not in its form
  5  the set is over 65,535 bytes
  6  the text ends before the file does

Exit status:
  0  the bytes of the file are written
  2  the command line is invalid
  3  reading, the listing or writing is at fault; standard error says how, and of a listing
     the number of the fault and the first line at fault";

/// What `--comments` says.
pub(crate) const COMMENTS_HELP: &str =
    "Drops comments, empty lines, and carriage returns at the ends of lines";

/// What `--hex` of `build` says.
pub(crate) const HEX_OUTPUT_HELP: &str =
    "Writes hexadecimal text in place of bytes, 16 bytes a line";

/// The usage line of `explain`.
pub(crate) const EXPLAIN_USAGE: &str = "usbdesc explain [OPTIONS] < INPUT";

/// What `explain` does.
pub(crate) const EXPLAIN_ABOUT: &str =
    "Explains the set, descriptor file or dump on standard input in words, a heading for each descriptor";

/// The text after the help of `explain`.
pub(crate) const EXPLAIN_HELP: &str = "\
Input:
  A configuration set, a descriptor file or a dump, as of 'show --any'. One that is broken is
  explained up to its fault.
  Or hexadecimal text, which no such input is: digits alone or as 0x09 and \\x09, with white
  space and commas, or as xxd, 'hexdump -C' and Wireshark write it. The first line says so.
  Or a recording, of which it writes what 'capture' does, with its exit status.
  With '--loose' a fragment: descriptors one after another, of which no owner is asked for, as
  an interface with its endpoints, or a setup packet, which has eight bytes.

Text:
  Each descriptor has a heading, with the place of its first byte and its length. Below it
  are the broken rules of chapter 9, a line with a '!' for each finding; then remarks, a line
  with a '?' for each value that can't be at the speed of the set or that is reserved; and
  its fields.
  Units of intervals and of bMaxPower depend on the speed, which is in the heading of each
  set: that of '--speed', or what the descriptors say of it.

Exit status:
  0  the text is written, with findings too
  2  the command line is invalid, or '--speed' names no speed
  3  reading, the input or writing is at fault; standard error says how, and of text that is
     not hexadecimal the line and the column, from 1";

/// What `--brief` of `explain` says.
pub(crate) const BRIEF_HELP: &str = "Leaves the fields out";

/// What `--no-places` says.
pub(crate) const NO_PLACES_HELP: &str = "Leaves the places out";

/// What `--utf8` says.
pub(crate) const UTF8_HELP: &str =
    "Prints non-ASCII characters unescaped (Unicode 15.0), except control characters";

/// What `--hex` of the other commands says.
pub(crate) const HEX_HELP: &str = "Reads the input as hexadecimal text";

/// What `--loose` says.
pub(crate) const LOOSE_HELP: &str =
    "Takes a fragment: descriptors one after another, or a setup packet";

/// What `--formats` says.
pub(crate) const FORMATS_HELP: &str =
    "Heads video frames with size and interval, audio formats with rates";

/// The values of `--speed` of `explain`.
pub(crate) const RUNNING_SPEEDS: &str = "low|full|high|super";

/// What `--speed` of `explain` says.
pub(crate) const RAN_AT_HELP: &str =
    "Speed at which the device ran [default: what the descriptors say]";

/// The usage line of `enumerate`.
pub(crate) const ENUMERATE_USAGE: &str = "usbdesc enumerate [OPTIONS] < INPUT";

/// What `enumerate` does.
pub(crate) const ENUMERATE_ABOUT: &str =
    "Enumerates a device of the descriptor file on standard input, over a bus that may lose packets";

/// The text after the help of `enumerate`.
pub(crate) const ENUMERATE_HELP: &str = "\
Input:
  A descriptor file: the device descriptor, its configuration sets, a qualifier and its
  other-speed sets where there is another speed, and where a string is named the languages
  and the strings.

Log:
  With --log a line for each transaction is written before the result: its number, its fate,
  its packets, in brackets where one was lost, its data, and what the host and what the device
  have then. Data of more than 8 bytes are below it, but not with --brief. A line begins each
  bus reset and each transfer. The last line counts lost packets and busy
  transactions.
  A packet in which bits change has a line below: its number, its bytes, the bits, and what it
  is refused as. Where no check finds the change, a second line has what arrives. With --packets
  each packet has a line: lost, or arrives.

Fates:
  A letter for each transaction of the bus, in order. After the last one all packets arrive.
  .  all packets arrive
  n  the device is not ready: it answers NAK to all but a SETUP
  d  what the host sends is lost
  u  what the device answers is lost
  a  the host's ACK of a data packet is lost

Damage:
  With --damage packets are bytes, from the PID to the CRC, and bits change in some of them.
  Who receives what is no packet ignores it; what still is one arrives as what it became.
  An entry N:P:B,.. names a transaction and a packet of it, counted from 1, and the bits,
  counted from 0 as they are sent: 7:2:5,17 is transaction 7, second packet, bits 5 and 17.
  A ';' parts entries. What a fate loses isn't there to change.

Refused, 'refused N', with the first finding where N is 1:
  1  a rule of chapter 9 is broken
  2  the strings are not those that the file names, or a language stands twice
  3  no device of this speed has such descriptors
  5  a set has no bytes, or the sets are not as declared

Trouble, 'trouble N STEP attempts ATTEMPTS transactions TRANSACTIONS':
  1  no answer, three times in a row
  2  busy for longer than the limit
  3  the device stalled the request
  4  more bytes than were asked for
  5  an answer that cannot follow
  6  not what was asked for
  7  out of memory

Exit status:
  0  the host has read the device; the result is written, and the listing of what was read
  1  the file is no device of that speed, or the host gave up; a line is written that says why
  2  the command line is invalid, or the value of an option is
  3  reading, the input or writing is at fault; standard error says how";

/// The values of `--speed`.
pub(crate) const SPEEDS: &str = "low|full|high";

/// What `--speed` says.
pub(crate) const SPEED_HELP: &str = "Speed of the device [default: full]";

/// What `--address` says.
pub(crate) const ADDRESS_HELP: &str = "Address that the device gets, 1 to 127 [default: 1]";

/// What `--naks` says.
pub(crate) const NAKS_HELP: &str =
    "NAKs without progress that a transfer retries, 0 to 65535 [default: 16]";

/// What `--attempts` says.
pub(crate) const ATTEMPTS_HELP: &str =
    "Attempts of the host at most, each from a bus reset, 1 to 8 [default: 3]";

/// The values of `--fates`.
pub(crate) const FATES: &str = "[.ndua]..";

/// What `--fates` says.
pub(crate) const FATES_HELP: &str =
    "What the bus does to each transaction, a letter for each [default: none]";

/// The values of `--damage`.
pub(crate) const DAMAGE: &str = "N:P:B,..;..";

/// What `--damage` says.
pub(crate) const DAMAGE_HELP: &str =
    "Which bits the bus changes, in which packets of which transactions [default: none]";

/// What `--with-strings` says.
pub(crate) const WITH_STRINGS_HELP: &str =
    "Takes a dump too, with the text 'string 3' for index 3 and so on, in language 0409";

/// What the value of `--strings` is called: its words would make the column of options too wide.
pub(crate) const STRINGS: &str = "WORD";

/// What `--strings` says.
pub(crate) const STRINGS_HELP: &str =
    "Named strings: needed, wanted (may be missing) or skipped [default: needed]";

/// The values of `--other-speed`.
pub(crate) const OTHER_SPEED: &str = "yes|no";

/// What `--other-speed` says.
pub(crate) const OTHER_SPEED_HELP: &str =
    "Whether the qualifier and the other-speed sets are asked for [default: yes]";

/// What `--log` says.
pub(crate) const LOG_HELP: &str = "Writes a line for each transaction before the result";

/// What `--packets` says.
pub(crate) const PACKETS_HELP: &str = "Shows the bytes of each packet in the log";

/// What `--brief` of `enumerate` says.
pub(crate) const BRIEF_LOG_HELP: &str = "Leaves the lines of data out of the log";

/// The usage line of `capture`.
pub(crate) const CAPTURE_USAGE: &str = "usbdesc capture [OPTIONS] < RECORDING";

/// What `capture` does.
pub(crate) const CAPTURE_ABOUT: &str =
    "Tells of a recording of a bus on standard input, a line for each control transfer";

/// The text after the help of `capture`.
pub(crate) const CAPTURE_HELP: &str = "\
Input:
  A recording of any length: pcap or pcapng, as tcpdump, Wireshark and QEMU write them, with
  frames of usbmon or USBPcap or packets of the bus, or the text of Linux's usbmon.

Lines:
  The time in seconds after the first frame, the device, that is the number of its bus, a
  point and its address, the request, and what came of it: a number of bytes, 'done', 'STALL'
  or the status of the system, with what that means after a '?'. What USB 2.0 forbids is below
  it after a '!'. The last lines have the number of frames and the devices with what came of
  their descriptors and how many findings there are.

Faults of a recording, 'usbdesc: capture fault N at PLACE', the place in bytes from 0 of the
part that has the fault; what came before it is told:
  1  neither pcap, nor pcapng, nor usbmon's text
  2  a section of neither byte order
  3  a block of a length that its type doesn't have
  4  a block whose two lengths differ
  5  a section of a version other than 1
  6  a description of an interface of over 65,627 bytes
  7  a section with over 65,536 interfaces
  8  an option of an interface that isn't whole
  9  a packet of an interface that isn't there
  10 a packet whose data run past its block
  11 no line of usbmon's text

Exit status:
  0  the lines are written, and no device has findings, or the file is
  1  the lines are written, and a device has findings
  2  the command line is invalid, or the value of an option is
  3  reading, the recording or writing is at fault, or a part of the file didn't come;
     standard error says how";

/// What `--data` says.
pub(crate) const DATA_HELP: &str = "Writes the bytes of each transfer below its line";

/// What `--brief` of `capture` says.
pub(crate) const BRIEF_LINES_HELP: &str = "Leaves out the lines of transfers";

/// The value of `--device` and `--file`.
pub(crate) const DEVICE: &str = "BUS.ADDRESS";

/// What `--device` says.
pub(crate) const DEVICE_HELP: &str = "Tells of this device alone";

/// The value of `--from` and `--to`.
pub(crate) const SECONDS: &str = "SECONDS";

/// What `--from` says.
pub(crate) const FROM_HELP: &str = "Leaves out transfers that ended before this time";

/// What `--to` says.
pub(crate) const TO_HELP: &str = "Leaves out transfers that ended after this time";

/// What `--file` says.
pub(crate) const FILE_HELP: &str =
    "Writes the descriptors of this device, a file or where strings lack a dump";
