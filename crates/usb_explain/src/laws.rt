//! What holds of explanations, and of fields. The functions of these laws do nothing: their contracts are the laws.
ghost use Rattle.usb_explain.specs.FieldLaws.{AllFieldsHaveAllBytes};
ghost use Rattle.usb_explain.specs.Fragments.{AllFragmentBytesOnce};
ghost use Rattle.usb_explain.specs.Laws.{AllSayLineOfFault, BriefLeavesOutFields};
ghost use Rattle.usb_explain.specs.WalkedStrings.{WalkIsAsExplained};

/// Each byte of a fragment is in one descriptor: its descriptors follow each other from the first byte on, each at its place, and
/// then comes the rest.
pub fn each_byte_of_a_fragment_is_in_one_descriptor()
    ensures { AllFragmentBytesOnce }
{}

/// An explanation says the line of its fault: of bytes that `read_input` refuses it has, right after the lines of the descriptors
/// before the place of the fault, a line with the fault's number, if it has one, and its place.
pub fn an_explanation_says_the_line_of_its_fault()
    ensures { AllSayLineOfFault }
{}

/// A brief explanation is the other one without the lines of fields: it has the same descriptors, headings, findings and
/// remarks.
pub fn a_brief_explanation_leaves_out_the_fields()
    ensures { BriefLeavesOutFields }
{}

/// Each byte of a descriptor is in one field: its fields stand one after another, each where the one before ends and none
/// without bytes, and have just the bytes from the place of the first one up to the end of the descriptor.
pub fn each_byte_of_a_descriptor_is_in_one_field()
    ensures { AllFieldsHaveAllBytes }
{}

/// By their numbers, the strings of the walk over an input have the indices and the languages that its explanation shows.
pub fn strings_are_placed_as_explained()
    ensures { WalkIsAsExplained }
{}
