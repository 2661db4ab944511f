// The examples of docs/handshake.md.
use handshake::conversation::converse;
use handshake::credential::shows;
use handshake::machine::{Handshake, Refusal};
use std::test::Fail;

const ID: [u8; 16] = [
    0x00, 0x11, 0x22, 0x33, 0x44, 0x55, 0x66, 0x77, 0x88, 0x99, 0xaa, 0xbb, 0xcc, 0xdd, 0xee, 0xff,
];

// The line is answered so, and the rest of the buffer stays.
fn is_answered(handshake: &mut Handshake, line: &[u8], expected: &[u8]) -> Result<(), Fail> {
    let mut out = [7u8; 38];
    let count = handshake.line(&ID, line, &mut out)?;
    if count < 38 && &out[0..count] == expected && out[37] == 7 {
        Ok(())
    } else {
        Err(Fail::new("it was answered something else"))
    }
}

#[test]
fn a_program_tries_again_and_begins(rt: HostRuntime) -> Result<(), Fail> {
    let mut h = Handshake::new(1000);
    is_answered(&mut h, b"AUTH", b"REJECTED EXTERNAL\r\n")?;
    is_answered(&mut h, b"AUTH EXTERNAL 31303031", b"REJECTED EXTERNAL\r\n")?;
    is_answered(
        &mut h,
        b"AUTH EXTERNAL 31303030",
        b"OK 00112233445566778899aabbccddeeff\r\n",
    )?;
    is_answered(&mut h, b"NEGOTIATE_UNIX_FD", b"ERROR\r\n")?;
    is_answered(&mut h, b"CANCEL", b"REJECTED EXTERNAL\r\n")?;
    is_answered(
        &mut h,
        b"AUTH EXTERNAL 31303030",
        b"OK 00112233445566778899aabbccddeeff\r\n",
    )?;
    is_answered(&mut h, b"BEGIN", b"")?;
    assert!(rt; h.has_begun());
    Ok(())
}

#[test]
fn the_texts_of_uids(rt: HostRuntime) {
    assert!(rt; shows(b"30", 0));
    assert!(rt; shows(b"31303030", 1000));
    assert!(rt; shows(b"34323934393637323935", 4294967295));
    assert!(rt; !shows(b"3031303030", 1000));
    assert!(rt; !shows(b"", 0));
}

#[test]
fn refusals_and_whole_conversations(rt: HostRuntime) {
    let mut h = Handshake::new(0);
    assert_eq!(rt;
        h.line(&ID, b"BEGIN", &mut [0u8; 36]),
        Err(Refusal::ShortBuffer)
    );
    assert_eq!(rt;
        h.line(&ID, b"BEGIN", &mut [0u8; 37]),
        Err(Refusal::EarlyBegin)
    );
    let begun = converse(0, &ID, &[b"AUTH EXTERNAL 30", b"BEGIN"]);
    assert!(rt; begun.has_begun());
    let ended = converse(0, &ID, &[b"BEGIN", b"AUTH EXTERNAL 30", b"BEGIN"]);
    assert!(rt; !ended.has_begun());
}
