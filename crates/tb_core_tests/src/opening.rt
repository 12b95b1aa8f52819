//! Tests that a core opens.

use std::alloc::AllocGlobal;
use std::mem;
use std::process::Abort;
use tb_core::Core;
use tb_model::{StepId, TaskName};

fn opened(rt: &(impl Abort + AllocGlobal)) -> Core {
    Core::open(rt.alloc(), &[5], 2, 10).expect(rt, "memory is there")
}

#[test]
fn an_open_core_has_no_steps(rt: HostRuntime) {
    let core = opened(&rt);
    let first = StepId {
        task: TaskName::root(rt.alloc()),
        k: 1,
    };
    assert_eq!(rt; core.count(), 0);
    assert!(rt; core.is_there(&first.task));
    assert!(rt; !core.has_ended(&first.task));
    assert!(rt; core.cells() == [5].as_slice());
    assert!(rt; core.newest().is_none());
    assert!(rt; core.keeps(&first).is_some());
    mem::forget(first);
    mem::forget(core);
}
