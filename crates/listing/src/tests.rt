use crate::text::{Refusal, refused};
use std::test::Fail;
use table::fault::Reason;

// No clause says that there is memory enough.
#[test]
fn a_refusal_has_a_line(rt: HostRuntime) -> Result<(), Fail> {
    let line = refused(rt.alloc(), Refusal::Table(Reason::TableLength.at(172)))?;
    assert_eq!(rt; line.as_str(), "table refused 1 172\n");
    let line = refused(rt.alloc(), Refusal::Events(Reason::Events.at(12)))?;
    assert_eq!(rt; line.as_str(), "events refused 13 12\n");
    Ok(())
}
