//! Findings as a caller writes them.
use anyhow::Result;
use nozzlegorse::rules::{Finding, Part, Rule};

/// Any number is printed; those of 1 to 13 have a rule.
#[test]
fn prints_a_finding_of_any_number(rt: HostRuntime) -> Result<()> {
    for (rule, line, name) in [
        (0, "V0 other 1 2 3", None),
        (1, "V1 other 1 2 3", Some(Rule::V1)),
        (13, "V13 other 1 2 3", Some(Rule::V13)),
        (14, "V14 other 1 2 3", None),
        (255, "V255 other 1 2 3", None),
    ] {
        let finding = Finding {
            rule,
            part: Part::Other,
            set: 1,
            setting: 2,
            endpoint: 3,
        };
        assert_eq!(rt; format!(in rt.alloc(); "{finding}")?.as_str(), line);
        assert_eq!(rt; finding.rule(), name);
    }
    Ok(())
}
