//! The fields of an ordinary session after it is read: its size, its limits and its programs. Expected values come from
//! docs/reference/sessions.md.
use session_text::{Session, read};
use std::process::Abort;
use std::test::Fail;
use test_sessions::ORDINARY;

fn has_config(session: &Session) -> bool {
    let config = session.config();
    let is_sized = config.size.rows == 25 && config.size.cols == 80;
    is_sized && config.consoles == 2 && config.front.get() == 1
}

fn has_limits(session: &Session) -> bool {
    let limits = session.limits();
    limits.events == 65_536 && limits.bytes == 67_108_864
}

fn check_read(by: &impl Abort, session: &Session) {
    assert!(by; has_config(session));
    assert!(by; has_limits(session));
    assert!(by; session.turns().is_empty());
    assert!(by; session.programs().len() == 3);
    assert!(by; session.key_tables().exists(8));
}

#[test]
fn an_ordinary_session_is_read(rt: HostRuntime) -> Result<(), Fail> {
    let session = read(rt.alloc(), ORDINARY.as_bytes())?;
    check_read(&rt, &session);
    Ok(())
}
