// Bytes of an area of memory: writing them, and those up to a place.
#![tactic(auto)]

ghost use Rattle.std.specs.Prelude.{◌≡◌, ◌+◌, length, take, if◌then◌else◌, Some, None};
ghost use Rattle.area.specs.Writes.{fits, written};

// Writes the bytes at a place of the area, and answers where they end; None, writing nothing, where they do not fit.
pub fn store(area: &mut [u8], at: usize, bytes: &[u8]) -> Option<usize>
    ensures end { result ≡ (if fits area.old at bytes.now then Some (at + length bytes.now) else None) }
    ensures after { area.new ≡ (if fits area.old at bytes.now then written area.old at bytes.now else area.old) }
{
    let end = at.checked_add(bytes.len())?;
    // `get_mut` would not do: its contract says nothing of the slice after the write
    if end > area.len() {
        return None;
    }
    area[at..end].copy_from_slice(bytes);
    Some(end)
}

// The bytes up to a place; all of them where it lies behind their end.
pub fn front(area: &[u8], end: usize) -> &[u8]
    ensures { result.now ≡ take end area.now }
{
    &area[..end.min(area.len())]
}
