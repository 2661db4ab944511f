// Rows of a recorded stream, as docs/runner.md has them.
use std::alloc::Global;
use std::test::Fail;
use stream::{Answer, Call, Fault, Form, agrees, content, read_answer, read_call};

// Why a row is no call.
fn fault_of(heap: Global, row: &[u8]) -> Option<Fault> {
    read_call(heap, row).err()
}

#[test]
fn reads_calls(rt: HostRuntime) -> Result<(), Fail> {
    let heap = rt.alloc();
    match read_call(heap, content(b"line 3 0aff 512  # a comment"))? {
        Call::Line {
            connection,
            bytes,
            size,
        } => {
            assert!(rt; connection == 3 && size == 512 && bytes.as_slice() == [10, 255].as_slice());
        }
        _ => return Err(Fail::new("no line")),
    }
    assert!(rt;
        matches!(
            read_call(heap, b"bus 16 000102030405060708090a0b0c0d0e0f"),
            Ok(Call::Bus { limit: 16, .. })
        )
    );
    assert!(rt;
        matches!(
            read_call(heap, b"tick 18446744073709551615"),
            Ok(Call::Tick { time: u64::MAX })
        )
    );
    assert_eq!(rt; fault_of(heap, b"lines 3 0aff 512"), Some(Fault::NoSuchRow));
    assert_eq!(rt; fault_of(heap, b"open 3 "), Some(Fault::BadNumber));
    assert_eq!(rt; fault_of(heap, b"open 03 0"), Some(Fault::BadNumber));
    assert_eq!(rt; fault_of(heap, b"open 256 0"), Some(Fault::BadNumber));
    assert_eq!(rt; fault_of(heap, b"message 3 0aFF"), Some(Fault::BadHex));
    assert_eq!(rt; fault_of(heap, b"close 3 4"), Some(Fault::WrongCount));
    assert_eq!(rt; fault_of(heap, b"bus 16 00"), Some(Fault::WrongLength));
    Ok(())
}

// That `row` is read as an answer and shown as it was.
fn shows_again(heap: Global, form: Form, row: &[u8]) -> Result<bool, Fail> {
    let answer = read_answer(heap, form, row)?;
    let text = answer.to_string(heap)?;
    Ok(text.as_bytes() == row && agrees(&answer, &answer))
}

#[test]
fn reads_answers(rt: HostRuntime) -> Result<(), Fail> {
    let heap = rt.alloc();
    assert!(rt; shows_again(heap, Form::Nothing, b"= 0")?);
    assert!(rt; shows_again(heap, Form::Bytes, b"= 0 -")?);
    assert!(rt; shows_again(heap, Form::Bytes, b"= 3 4f4b20")?);
    assert!(rt; shows_again(heap, Form::Counts, b"= 2 0")?);
    assert!(rt; shows_again(heap, Form::Bytes, b"! 14")?);
    assert!(rt; shows_again(heap, Form::Counts, b"! 7 1 2 65535")?);
    assert!(rt; !agrees(&Answer::Refused(5), &Answer::Done));
    assert!(rt;
        matches!(
            read_answer(heap, Form::Bytes, b"= 2 4f4b20"),
            Err(Fault::WrongLength)
        )
    );
    assert!(rt;
        matches!(
            read_answer(heap, Form::Nothing, b"! 15"),
            Err(Fault::BadNumber)
        )
    );
    assert!(rt; Fault::NoSuchRow.to_string(heap)?.as_str() == "there is no such row");
    Ok(())
}
