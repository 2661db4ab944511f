// Reading the bytes of a message.
use crate::failure::Failure;
use items::gap;
use order::ByteOrder;
use signature::Alignment;
use std::marker::PhantomData;

// A place in a message of byte order O, from which what comes next is read.
#[derive(Clone, Copy)]
pub struct Reader<'a, O> {
    bytes: &'a [u8],
    at: usize,
    order: PhantomData<O>,
}

impl<'a, O: ByteOrder> Reader<'a, O> {
    pub fn new(bytes: &'a [u8], at: usize) -> Reader<'a, O> {
        Reader {
            bytes,
            at,
            order: PhantomData,
        }
    }

    pub fn at(&self) -> usize {
        self.at
    }

    // A reader of the same message at another place.
    pub fn moved_to(&self, at: usize) -> Reader<'a, O> {
        Reader::new(self.bytes, at)
    }

    // Passes padding.
    pub fn pad(&mut self, alignment: Alignment) {
        self.at = self.at.saturating_add(gap(self.at, alignment));
    }

    // So many bytes.
    fn take(&mut self, size: usize) -> Result<&'a [u8], Failure> {
        let to = self.at.checked_add(size).ok_or(Failure::Unreadable)?;
        let bytes = self.bytes.get(self.at..to).ok_or(Failure::Unreadable)?;
        self.at = to;
        Ok(bytes)
    }

    fn array<const N: usize>(&mut self) -> Result<[u8; N], Failure> {
        <[u8; N]>::try_from(self.take(N)?).map_err(|_| Failure::Unreadable)
    }

    pub fn read_u8(&mut self) -> Result<u8, Failure> {
        let [byte] = self.array::<1>()?;
        Ok(byte)
    }

    pub fn read_u16(&mut self) -> Result<u16, Failure> {
        Ok(O::u16_of(self.array()?))
    }

    pub fn read_u32(&mut self) -> Result<u32, Failure> {
        Ok(O::u32_of(self.array()?))
    }

    pub fn read_u64(&mut self) -> Result<u64, Failure> {
        Ok(O::u64_of(self.array()?))
    }

    // So many bytes, and the zero byte that ends them.
    fn closed(&mut self, size: usize) -> Result<&'a [u8], Failure> {
        let bytes = self.take(size)?;
        let _zero = self.read_u8()?;
        Ok(bytes)
    }

    // The bytes of a text or an object path.
    pub fn text(&mut self) -> Result<&'a [u8], Failure> {
        let size = self.read_u32()?;
        self.closed(size as usize)
    }

    // The codes of a signature.
    pub fn signature(&mut self) -> Result<&'a [u8], Failure> {
        let size = self.read_u8()?;
        self.closed(usize::from(size))
    }
}
