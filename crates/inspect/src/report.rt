// What is said of a line.
use crate::content::content;
use crate::failure::Failure;
use items::Fault;
use message::check;
use std::alloc::Global;
use stream::unhex;

// The most bytes that a message may have.
const LIMIT: usize = 1000;

// The bytes of a line. A `-`, which elsewhere stands for none, is no hex digit.
fn bytes_of(heap: Global, line: &str) -> Result<Vec<u8>, Failure> {
    if line == "-" {
        return Err(Failure::NotHex);
    }
    Ok(unhex(heap, line.as_bytes())?)
}

// What the message holds that a line of hex digits spells, or what is wrong with bytes that are none.
pub fn report_on(heap: Global, line: &str) -> Result<Result<String, Fault>, Failure> {
    let bytes = bytes_of(heap, line)?;
    match check(bytes.as_slice(), LIMIT) {
        Ok(message) => Ok(Ok(content(heap, message)?)),
        Err(fault) => Ok(Err(fault)),
    }
}
