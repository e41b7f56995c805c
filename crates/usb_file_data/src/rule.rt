//! The rules, and what each asks.
ghost use Rattle.std.specs.Prelude.{◌≡◌, ◌==◌, ◌≤◌, ◌↔◌, ◌-◌, [], IfSome, IsSome, find, get_or, map};
ghost use Rattle.std.specs.Option.{option_copied};
ghost use Rattle.usb_file_data.specs.Numbers.{rule_number, rule_numbered};

/// A rule of chapter 9 of USB 2.0.
///
/// ```rust
/// assert_eq!(rt; Rule::V10.number(), 10);
/// for rule in Rule::ALL {
///     println!(rt; "V{} {}", rule.number(), rule.message())?;
/// }
/// ```
#[derive(Clone, Copy, Debug, PartialEq, Eq, Hash)]
pub enum Rule {
    /// bNumInterfaces of a set (9.6.3).
    V1,
    /// Interface numbers without a gap (9.6.5).
    V2,
    /// Distinct alternate settings of an interface (9.6.5).
    V3,
    /// An alternate setting 0 of each interface (9.6.5).
    V4,
    /// bNumEndpoints of a setting (9.6.5).
    V5,
    /// Number and reserved bits of an endpoint's address (9.6.6).
    V6,
    /// Addresses within a setting (9.6.5 and 9.6.6).
    V7,
    /// Addresses of two interfaces (9.6.5).
    V8,
    /// bmAttributes of a set (9.6.3).
    V9,
    /// The value that selects a set (9.6.3 and 9.4.7).
    V10,
    /// Packet size, class and reserved byte of the device descriptor and the qualifier (9.6.1 and 9.6.2).
    V11,
    /// Reserved bits of wMaxPacketSize (9.6.6).
    V12,
    /// The interfaces of an association (change notice on interface associations).
    V13,
}

impl Rule {
    /// All rules, in their order.
    pub const ALL: [Rule; 13] = [
        Rule::V1,
        Rule::V2,
        Rule::V3,
        Rule::V4,
        Rule::V5,
        Rule::V6,
        Rule::V7,
        Rule::V8,
        Rule::V9,
        Rule::V10,
        Rule::V11,
        Rule::V12,
        Rule::V13,
    ];

    /// The rule of a number, if it is one of 1 to 13.
    ///
    /// ```rust
    /// assert_eq!(rt; Rule::of(10), Some(Rule::V10));
    /// assert_eq!(rt; Rule::of(14), None);
    /// ```
    #[tactic(auto, using(crate::proofs::RuleNumbers::known))]
    pub fn of(number: u8) -> Option<Rule>
        ensures rule { result ≡ rule_numbered number }
        ensures numbered { IfSome result (λ rule. rule_number rule ≡ number) }
        ensures known { IsSome result ↔ ((1 ≤ number) × (number ≤ 13)) }
    {
        with_number(&Rule::ALL, number).copied()
    }

    /// Its number, from 1 to 13.
    pub fn number(self) -> u8
        ensures { result ≡ rule_number self }
    {
        match self {
            Rule::V1 => 1,
            Rule::V2 => 2,
            Rule::V3 => 3,
            Rule::V4 => 4,
            Rule::V5 => 5,
            Rule::V6 => 6,
            Rule::V7 => 7,
            Rule::V8 => 8,
            Rule::V9 => 9,
            Rule::V10 => 10,
            Rule::V11 => 11,
            Rule::V12 => 12,
            Rule::V13 => 13,
        }
    }

    /// What breaks it, in words: its row of [`MESSAGES`].
    pub fn message(self) -> &'static str
        ensures { result.now ≡ get_or (map (λ message. message.now) MESSAGES) (rule_number self - 1) [] }
    {
        MESSAGES[usize::from(self.number()) - 1]
    }
}

/// The first of these rules that has the number.
fn with_number(rules: &[Rule], number: u8) -> Option<&Rule>
    ensures { option_copied result ≡ find (λ rule. rule_number rule == number) rules.now }
{
    rules.iter().find(|rule| rule.number() == number)
}

/// What breaks each rule, in words, in their order.
pub const MESSAGES: [&str; 13] = [
    "bNumInterfaces is not the count of distinct interface numbers",
    "interfaces are not numbered from 0 without a gap",
    "an alternate setting of an interface stands twice",
    "an interface has no alternate setting 0",
    "bNumEndpoints is not the count of the setting's endpoints",
    "an endpoint has number 0, or one of bits 6 to 4 of bEndpointAddress is one",
    "two endpoints of a setting have one address",
    "two interfaces of a set claim one endpoint address",
    "in bmAttributes of a configuration bit 7 is zero, or one of bits 4 to 0 is one",
    "a part has no set, or a bConfigurationValue is 0 or stands twice",
    "bMaxPacketSize0 is not 8, 16, 32 or 64, a subclass has no class, or bReserved is not 0",
    "one of bits 15 to 13 of wMaxPacketSize is one",
    "an association binds no interface, or one that the set does not have",
];
