//! Short texts, put together from their end.

use std::mem;
use std::process::Abort;
use tb_draft::ShortText;
use tb_model::TaskName;

/// The number is spelled so.
fn compare(rt: &impl Abort, n: i64, want: &str) {
    let mut text = ShortText::new();
    text.prepend_signed(n).expect(rt, "there is room");
    assert_eq!(rt; text.as_str(), want);
}

#[test]
fn numbers_of_any_length(rt: HostRuntime) {
    compare(&rt, 0, "0");
    compare(&rt, -9, "-9");
    compare(&rt, 10, "10");
    compare(&rt, 4_294_967_295, "4294967295");
    compare(&rt, 4_294_967_296, "4294967296");
    compare(&rt, 9_223_372_036_854_775_807, "9223372036854775807");
    compare(&rt, -9_223_372_036_854_775_808, "-9223372036854775808");
}

#[test]
fn pieces_stand_in_front_of_another(rt: HostRuntime) {
    let name = TaskName::parse(rt.alloc(), b"0.1.12.3.4.5.6.7.8.9.10.1.2.3.1000000");
    let name = name.expect(&rt, "a name");
    let mut text = ShortText::new();
    assert_eq!(rt; text.as_str(), "");
    text.prepend(" end\n").expect(&rt, "there is room");
    text.prepend_number(4_294_967_295)
        .expect(&rt, "there is room");
    text.prepend("#").expect(&rt, "there is room");
    text.prepend_name(&name).expect(&rt, "there is room");
    assert_eq!(rt;
        text.as_str(),
        "0.1.12.3.4.5.6.7.8.9.10.1.2.3.1000000#4294967295 end\n"
    );
    mem::forget(name);
}

#[test]
fn what_has_no_room_is_left_out(rt: HostRuntime) {
    let name = TaskName::parse(rt.alloc(), b"0.1.1.1.1.1.1.1.1.1.1.1.1.1.1.1.1.1");
    let name = name.expect(&rt, "a name");
    let mut text = ShortText::new();
    assert!(rt; text.prepend_name(&name).is_none());
    mem::forget(name);
    let mut text = ShortText::new();
    text.prepend("0123456789012345678901234567890123456789")
        .expect(&rt, "there is room");
    text.prepend("01234567890123456789012345678901234567890123456789")
        .expect(&rt, "there is room");
    assert!(rt; text.prepend_number(7).is_none());
    assert!(rt; text.prepend_signed(7).is_none());
    text.prepend("12345").expect(&rt, "there is room");
    text.prepend("7").expect(&rt, "there is room");
    assert!(rt; text.prepend("7").is_none());
    assert_eq!(rt; text.as_str().len(), 96);
}

#[test]
fn levels_of_a_byte_each(rt: HostRuntime) {
    let name = TaskName::parse(rt.alloc(), b"0.1.12.255.4").expect(&rt, "a name");
    assert_eq!(rt; name.few(), Some(&[4, 255, 12, 1][..]));
    let mut text = ShortText::new();
    text.prepend_name(&name).expect(&rt, "there is room");
    assert_eq!(rt; text.as_str(), "0.1.12.255.4");
    let child = name.child(256).expect(&rt, "a child");
    assert!(rt; child.few().is_none());
    assert!(rt; name.is_parent_of(&child));
    mem::forget(child);
    mem::forget(name);
}
