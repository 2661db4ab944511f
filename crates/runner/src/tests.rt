// Streams that stop a replay, and one that disagrees.
use crate::session::{Session, Trouble};
use std::alloc::Global;
use std::test::Fail;
use stream::{Fault, Verb};

const BUS: &[u8] = b"bus 4 00112233445566778899aabbccddeeff";

// After the rows before it, the last row stops the replay so.
fn stops(heap: Global, before: &[&[u8]], last: &[u8], trouble: Trouble) -> Result<(), Fail> {
    let mut session = Session::new();
    for row in before {
        if !is_fine(&mut session, heap, row) {
            return Err(Fail::new("a row before it was not fine"));
        }
    }
    match session.row(heap, last) {
        Ok(_) => Err(Fail::new("the row was taken")),
        Err(found) if found == trouble => Ok(()),
        Err(_) => Err(Fail::new("another trouble stopped it")),
    }
}

fn is_fine(session: &mut Session, heap: Global, row: &[u8]) -> bool {
    match session.row(heap, row) {
        Ok(wrong) => wrong.is_none(),
        Err(_) => false,
    }
}

#[test]
fn what_is_malformed(rt: HostRuntime) -> Result<(), Fail> {
    let heap = rt.alloc();
    stops(heap, &[], b"open 1 1000", Trouble::NoBus)?;
    stops(heap, &[BUS], b"= 0", Trouble::NoCall)?;
    stops(
        heap,
        &[BUS, b"open 1 1000  # dust"],
        b"close 1",
        Trouble::NoAnswer,
    )?;
    stops(heap, &[BUS, b"open 1 1000"], BUS, Trouble::NoAnswer)?;
    stops(heap, &[BUS], b"tick 5", Trouble::NotYet(Verb::Tick))?;
    stops(heap, &[BUS], b"open 1 01", Trouble::Row(Fault::BadNumber))?;
    stops(heap, &[BUS], b"opens 1 1", Trouble::Row(Fault::NoSuchRow))
}

#[test]
fn another_answer_disagrees(rt: HostRuntime) -> Result<(), Fail> {
    let heap = rt.alloc();
    let mut session = Session::new();
    assert!(rt; is_fine(&mut session, heap, BUS));
    assert!(rt; is_fine(&mut session, heap, b"open 16 1000"));
    assert!(rt; !is_fine(&mut session, heap, b"! 2"));
    assert!(rt; is_fine(&mut session, heap, b"open 16 1000"));
    assert!(rt; is_fine(&mut session, heap, b"! 1"));
    match session.end() {
        Ok(tally) => {
            assert!(rt; tally.calls() == 2 && tally.agreed == 1);
            Ok(())
        },
        Err(_) => Err(Fail::new("the stream has not ended")),
    }
}
