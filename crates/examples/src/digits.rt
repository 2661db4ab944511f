// Bytes in hex.
use hex_digits::pair;

#[test]
fn two_digits(rt: HostRuntime) {
    assert_eq!(rt; pair(0x09), *b"09");
    assert_eq!(rt; pair(0xaf), *b"af");
    assert_eq!(rt; pair(0xf0), *b"f0");
}
