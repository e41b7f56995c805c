//! A talk with writes to a device that has no owner: their data are rejected, and the talk goes on.
use crate::losses::hub;
use anyhow::Result;
use nozzlegorse::bus::{Asked, Fate, Setup, converse_asked};
use nozzlegorse::host::Reply;

/// SET_REPORT of one byte.
const SET_REPORT: [u8; 8] = [0x21, 9, 0, 2, 0, 0, 1, 0];

/// SET_ADDRESS 5, SET_REPORT with these data and GET_CONFIGURATION take 2, 2 and 3 transactions.
#[test]
fn a_write_without_an_owner_is_refused(rt: HostRuntime) -> Result<()> {
    let description = hub(rt.alloc())?;
    for data in [[1u8].as_slice(), &[], &[1, 2]] {
        let asked = [
            Asked::from(Setup::from_bytes(&[0, 5, 5, 0, 0, 0, 0, 0])),
            Asked {
                setup: Setup::from_bytes(&SET_REPORT),
                data,
            },
            Asked::from(Setup::from_bytes(&[0x80, 8, 0, 0, 0, 0, 1, 0])),
        ];
        let fates: [Fate; 0] = [];
        let talk = converse_asked(rt.alloc(), &description, 16, &asked, &fates)?;
        assert_eq!(rt; talk.stopped, None);
        assert_eq!(rt; (talk.transactions, talk.state.address), (7, 5));
        assert!(rt; talk.replies.get(0) == Some(&Reply::Done));
        assert!(rt; talk.replies.get(1) == Some(&Reply::Refused));
        assert!(rt;
            matches!(talk.replies.get(2), Some(Reply::Bytes(bytes)) if bytes.as_slice() == [0u8].as_slice())
        );
    }
    Ok(())
}
