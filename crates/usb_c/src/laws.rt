//! What holds of fields and troubles as numbers. The functions of these laws do nothing: their contracts are the laws.
ghost use Rattle.usb_c.specs.FieldLists.{AllByNumber};
ghost use Rattle.usb_c.specs.Words.{TroublesAreReported};

/// By their numbers the fields that `nzg_fields` gives at once are those of `nzg_field`, and there are as many.
pub fn all_fields_are_those_by_number()
    ensures { AllByNumber }
{}

/// The numbers of a trouble that `nzg_host_outcome` gives are those of that trouble alone, so `nzg_trouble_text` says it.
pub fn each_trouble_has_words()
    ensures { TroublesAreReported }
{}
