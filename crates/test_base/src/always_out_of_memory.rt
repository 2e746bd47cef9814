//! A script is read, and values are copied, with ample memory: none of these calls answers want of memory.

use crate::players::{CHILD, ROOT, bytes, child_case, put};
use protocol::{Act, Bytes, Envelope, Event, Message, Op, Presumption, Record};
use std::test::Fail;
use trace_lines::case_text;
use tree_script::read;

// A key and a value are in each act, message, write and record.
const _: () = prove!(size_of::<Bytes>() == 16);

#[test]
fn a_script_is_read(rt: HostRuntime) -> Result<(), Fail> {
    let alloc = rt.alloc();
    let script = b"[[process]]\nid = 1\nkind = \"coordinator\"\n---\nbegin pa\n".as_slice();
    let (tree, events) = read(alloc, script).ok().ok_or("a script")?;
    assert_eq!(rt; tree.entries().len(), 1);
    assert!(rt;
        matches!(
            events.as_slice(),
            [Event::Act(Act::Begin(Presumption::PresumeAbort))]
        )
    );
    assert!(rt; case_text(alloc, &child_case())?.as_slice() == b"a1.1@2.1.1".as_slice());
    Ok(())
}

#[test]
fn few_bytes_and_many_are_copied(rt: HostRuntime) -> Result<(), Fail> {
    let alloc = rt.alloc();
    for len in [0, 1, 14, 15, 256] {
        let text = vec![in alloc; b'v'; len]?;
        let copy = bytes(alloc, text.as_slice())?.copied(alloc)?;
        assert!(rt; copy.as_slice() == text.as_slice());
        assert_eq!(rt; copy.len(), len);
    }
    Ok(())
}

#[test]
fn an_act_is_copied(rt: HostRuntime) -> Result<(), Fail> {
    let act = Act::Work(child_case(), CHILD, put(rt.alloc())?).copied(rt.alloc())?;
    assert!(rt; matches!(act, Act::Work(_, _, Op::Put(_, _))));
    Ok(())
}

#[test]
fn a_message_on_its_way_is_copied(rt: HostRuntime) -> Result<(), Fail> {
    let envelope = Envelope {
        from: ROOT,
        to: CHILD,
        message: Message::Work(child_case(), 1, put(rt.alloc())?),
    };
    let envelope = envelope.copied(rt.alloc())?;
    assert!(rt; matches!(envelope.message, Message::Work(_, 1, Op::Put(_, _))));
    Ok(())
}

#[test]
fn a_record_is_copied(rt: HostRuntime) -> Result<(), Fail> {
    let alloc = rt.alloc();
    let record = Record::Pair(bytes(alloc, b"x")?, bytes(alloc, b"1")?);
    assert!(rt; matches!(record.copied(alloc)?, Record::Pair(_, _)));
    Ok(())
}
