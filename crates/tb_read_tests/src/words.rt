//! The words of a line.

use std::process::Abort;
use tb_read::begins_with;

#[test]
fn a_first_byte_comes_after_blanks(rt: HostRuntime) {
    assert!(rt; begins_with(b" \t---", b'-'));
    assert!(rt; !begins_with(b"#-", b'-'));
    assert!(rt; !begins_with(b"  ", b'-'));
}
