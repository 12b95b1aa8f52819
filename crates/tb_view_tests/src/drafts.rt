//! Drafts with names of more levels than one block of numbers holds.

ghost use Rattle.std.specs.Prelude.{◌≡◌};

use std::mem;
use std::process::Abort;
use tb_draft::Draft;
use tb_lines::{Failed, Sink};
use tb_model::TaskName;

/// A sink that takes so many bytes in all, and then fails.
#[derive(Drop)]
struct Taken {
    bytes: Vec<u8>,
    room: usize,
    failed: u64,
}

impl Sink for Taken {
    ghost use Rattle.std.specs.Prelude.{Some};

    ghost taken = { λ s. Some s.bytes.items };

    ghost failures = { λ s. s.failed };

    fn write(&mut self, bytes: &[u8]) -> Result<usize, Failed> {
        let count = bytes.len().min(self.room);
        if count == 0 && !bytes.is_empty()
            || self.bytes.extend_from_slice(&bytes[..count]).is_err()
        {
            self.failed += 1;
            return Err(Failed);
        }
        self.room -= count;
        Ok(count)
    }
}

/// The name so many levels below the root, of numbers with one digit and with two.
fn deep_name(rt: &(impl Abort + AllocGlobal), levels: u32) -> TaskName {
    let mut name = TaskName::root(rt.alloc());
    for level in 0..levels {
        let n = if level % 40 == 7 { 12 } else { level % 9 + 1 };
        let next = name.child(n).expect(rt, "memory is there");
        mem::forget(mem::replace(&mut name, next));
    }
    name
}

/// A draft with a head, the name twice and texts between.
fn draft_of(rt: &(impl Abort + AllocGlobal), name: &TaskName) -> Draft {
    let mut draft = Draft::new(rt.alloc());
    draft.push_name(name).expect(rt, "memory is there");
    draft.push_str(" and ").expect(rt, "memory is there");
    draft.push_step(name, 17).expect(rt, "memory is there");
    draft.push_signed(-5).expect(rt, "memory is there");
    draft.push('\n').expect(rt, "memory is there");
    draft.prepend("head ").expect(rt, "memory is there");
    draft
}

/// The text of `draft_of`, spelled at once.
fn text_of(rt: &(impl Abort + AllocGlobal), name: &TaskName) -> String {
    let mut text = String::from_str(rt.alloc(), "head ").expect(rt, "memory is there");
    name.print(&mut text).expect(rt, "memory is there");
    text.push_str(" and ").expect(rt, "memory is there");
    name.print(&mut text).expect(rt, "memory is there");
    text.push_str("#17-5\n").expect(rt, "memory is there");
    text
}

/// What a sink with so much capacity takes of the draft.
fn written(rt: &(impl Abort + AllocGlobal), draft: &Draft, room: usize) -> Taken {
    let mut sink = Taken {
        bytes: Vec::new(rt.alloc()),
        room,
        failed: 0,
    };
    let outcome = draft.write(&mut sink);
    assert_eq!(rt; outcome.is_err(), sink.failed == 1);
    sink
}

/// The draft is written as the text, or a beginning of it where the sink fails.
fn compare_written(rt: &(impl Abort + AllocGlobal), draft: &Draft, text: &str) {
    for room in [0, 1, 5, 300, 900, text.len(), 100_000] {
        let sink = written(rt, draft, room);
        let count = room.min(text.len());
        assert_eq!(rt; sink.bytes.as_slice(), &text.as_bytes()[..count]);
        assert_eq!(rt; sink.failed == 0, count == text.len());
        mem::forget(sink);
    }
}

#[test]
fn drafts_of_deep_names(rt: HostRuntime) {
    for levels in [0, 3, 128, 129, 300, 2_000] {
        let name = deep_name(&rt, levels);
        let draft = draft_of(&rt, &name);
        let text = text_of(&rt, &name);
        compare_written(&rt, &draft, text.as_str());
        let spelled = draft.into_string().expect(&rt, "memory is there");
        assert_eq!(rt; spelled.as_str(), text.as_str());
        mem::forget(spelled);
        mem::forget(text);
        mem::forget(name);
    }
}

/// A draft that is passed on again and again is written whole, and holds little.
#[test]
fn drafts_in_pieces(rt: HostRuntime) {
    let name = deep_name(&rt, 200);
    let mut sink = Taken {
        bytes: Vec::new(rt.alloc()),
        room: 1_000_000,
        failed: 0,
    };
    let mut draft = Draft::new(rt.alloc());
    let mut text = String::new(rt.alloc());
    for n in 0..600u32 {
        draft.push_name(&name).expect(&rt, "memory is there");
        draft.push_number(n).expect(&rt, "memory is there");
        name.print(&mut text).expect(&rt, "memory is there");
        tb_model::append_number(&mut text, n).expect(&rt, "memory is there");
        assert!(rt; sink.failed == 0);
        draft.pass_on(&mut sink).expect(&rt, "the sink has room");
    }
    assert!(rt; sink.failed == 0 && !sink.bytes.is_empty());
    draft.write(&mut sink).expect(&rt, "the sink has room");
    assert_eq!(rt; sink.bytes.as_slice(), text.as_bytes());
    mem::forget((name, sink, draft, text));
}
