//! What holds of the outline of each input, and so of its explanation, which has the lines of each descriptor of it. The
//! functions of these laws do nothing: their contracts are the laws.
ghost use Rattle.usb_remarks.specs.OutlineLaws.{AllEachByteOnce, BrokenCoversUpToFault, WholeHasNoRest, WholeShowsTree, WholeReportsFindings};
ghost use Rattle.usb_remarks.specs.OwnedEndpoints.{WholeShowsEndpoints};
ghost use Rattle.usb_remarks.specs.Remarks.{FullOrHighIsOpen, LowOrFullIsOpen};
ghost use Rattle.usb_remarks.specs.WalkedEndpoints.{WalkHasEndpoints};
ghost use Rattle.usb_remarks.specs.WalkedOutlines.{WalkIsOutline};
ghost use Rattle.usb_walk.specs.WalkedStrings.{WalkHasStrings};
ghost use Rattle.usb_walk.specs.WalkedTrees.{WalkIsTree};

/// Each byte once: the descriptors of any bytes follow each other from the first byte on, each at its place and as long as its
/// bLength, and then comes the rest. Of a set, a file or a dump no bytes are left: each of them is in a descriptor.
pub fn each_byte_is_in_one_descriptor()
    ensures bytes { AllEachByteOnce }
    ensures inputs { WholeHasNoRest }
{}

/// A broken input is explained up to its fault: of bytes that `read_input` refuses, all before the place of the fault are
/// in descriptors. Where the bytes end in a descriptor, its own bytes are not, which are at most 254; where the
/// first descriptor of a set is at fault, at most two of its bytes.
pub fn a_broken_input_is_explained_up_to_its_fault()
    ensures { BrokenCoversUpToFault }
{}

/// Each finding once: the findings that stand at the descriptors are, in the order of the bytes, just those that `check` reports
/// of the input, each at the descriptor that breaks the rule, with the cause and the counts by which the rule was judged. They
/// are as many as the last line says.
pub fn each_finding_is_reported_once()
    ensures { WholeReportsFindings }
{}

/// Each descriptor has its owner: the outline of an input has the descriptors that were read, in their order. Each says what
/// the descriptor is, which one before it it belongs to by its depth, and its owner: the number of its set, the interface and
/// its setting, and the address of the endpoint.
pub fn each_descriptor_has_its_owner()
    ensures { WholeShowsTree }
{}

/// Each endpoint has its setting: the endpoints among the descriptors of an input are those of its sets, set after set and in their
/// order, each with the number of its set, its interface and alternate setting, its address and its bytes.
pub fn each_endpoint_has_its_setting()
    ensures { WholeShowsEndpoints }
{}

/// An open speed is both: on an endpoint at `low or full speed`, or at `full or high speed`, something is remarked just where
/// it is remarked at either speed alone.
pub fn an_open_speed_is_both()
    ensures low_or_full { LowOrFullIsOpen }
    ensures full_or_high { FullOrHighIsOpen }
{}

/// From the first one on `WalkedDescriptor::next_in` gives the descriptors of the outline of the bytes, each as the numbers of its
/// position: each byte once and in order, of a set, a file or a dump to its end, of other bytes up to their fault, with the roles,
/// depths and owners of the tree.
pub fn a_walk_is_the_outline()
    ensures { WalkIsOutline }
{}

/// Of a set, a file or a dump it gives the descriptors of its tree in their order: each with its role, its depth and its part, and an
/// association or a raw one with the role of the nearest configuration, interface or endpoint before it.
pub fn a_walk_is_the_tree()
    ensures { WalkIsTree }
{}

/// The endpoints among them are those of the sets, set after set and in their order: the position of each has the number of its set,
/// its interface and alternate setting and its address.
pub fn a_walk_has_the_endpoints()
    ensures { WalkHasEndpoints }
{}

/// Of an input the strings of the walk are its strings, each with its index, its language and its bytes. Those of a file come
/// language by language in the order of its list of languages, and in each language one for each index that the file names,
/// ascending. A set and a dump have none (USB 2.0, 9.6.7).
pub fn a_walk_has_the_strings_of_a_file()
    ensures { WalkHasStrings }
{}
