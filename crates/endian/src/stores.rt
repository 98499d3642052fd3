// Numbers stored as bytes, the lowest first. No place is asked for: a caller lends the part to be filled.
ghost use Rattle.std.specs.Prelude.{◌≡◌, ◌+◌, min, length};
ghost use Rattle.std.proofs.lemmas.List.Edits.{sets};
ghost use Rattle.endian.specs.Stores.{low_first, fields};

// Fills a slice with the lowest bytes of v.
pub fn put(s: &mut [u8], v: u64)
    ensures { s.new ≡ low_first (length s.old) v }
{
    s.fill(0);
    copy(s, &v.to_le_bytes());
}

// Where a field of this width ends, from a place in a slice of so many bytes on: at the slice's end at the latest.
pub(crate) fn end_of(place: usize, width: usize, len: usize) -> usize
    ensures { result ≡ min (place + width) len }
{
    place.saturating_add(width).min(len)
}

// Stores fields one after the other from the slice's start on, as far as they have room.
pub fn put_fields(s: &mut [u8], widths: &[usize], values: &[u64])
    ensures { s.new ≡ sets s.old 0 (fields widths.now values.now) }
{
    let mut place = 0;
    for (width, value) in widths.iter().zip(values) {
        let end = end_of(place, *width, s.len());
        put(&mut s[place..end], *value);
        place = end;
    }
}

// Copies bytes to the slice's start, as many as have room.
pub fn copy(s: &mut [u8], from: &[u8])
    ensures { s.new ≡ sets s.old 0 from.now }
{
    let n = s.len().min(from.len());
    s[..n].copy_from_slice(&from[..n]);
}
