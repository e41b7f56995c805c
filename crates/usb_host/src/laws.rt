//! What holds of every enumeration, whatever is answered. The functions do nothing: their contracts are the laws.
ghost use Rattle.usb_host.specs.Laws.{ChosenHostsEnd, ChosenHostsReportWhatCame, HostsEnd, HostsReportWhatCame, OnlyStringsAreForgiven, ReportsWhatWasAsked, ReportsWhatWasRead};

/// Whatever a device answers, a success reports the file whose bytes were read.
pub fn a_report_is_what_was_read()
    ensures everything { ReportsWhatWasRead }
    ensures any_choice { ReportsWhatWasAsked }
{}

/// Whatever is answered, a host that reports a file was given its bytes in this attempt.
pub fn a_host_reports_what_came()
    ensures everything { HostsReportWhatCame }
    ensures any_choice { ChosenHostsReportWhatCame }
{}

/// Whatever is answered, a host ends within a stated number of transactions and attempts, with an outcome.
pub fn a_host_ends()
    ensures everything { HostsEnd }
    ensures any_choice { ChosenHostsEnd }
{}

/// Whatever is answered, a host passes over nothing but strings, and that only where they may be missing.
pub fn only_strings_are_forgiven()
    ensures { OnlyStringsAreForgiven }
{}
