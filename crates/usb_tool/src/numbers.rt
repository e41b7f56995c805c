//! The numbers of faults, rules, remarks and differences.
ghost use Rattle.usb_tool.specs.Numbers.{NumbersAreThoseOfTheTables};

/// Each fault, rule, remark and difference has the number that its table in the documents has. The `number` of each type is
/// its definition's, so this holds of what the program, C, Python and Rust show. It does nothing: its contract is the law.
pub fn numbers_are_those_of_the_tables()
    ensures { NumbersAreThoseOfTheTables }
{}
