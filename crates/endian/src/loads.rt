// Loads: the number that bytes make, the lowest byte first.
ghost use Rattle.std.specs.Prelude.{◌≡◌, take};
ghost use Rattle.std.proofs.lemmas.List.Edits.{sets};
ghost use Rattle.endian.specs.Loads.{number, values_at};

use crate::stores;

// The number of a slice's first eight bytes, or of all where it has fewer.
pub fn load(s: &[u8]) -> u64
    ensures { result ≡ number (take 8 s.now) }
{
    let mut bytes = [0; 8];
    stores::copy(&mut bytes, s);
    u64::from_le_bytes(bytes)
}

// Loads fields one after the other from the slice's start on, as many as there is room for.
pub fn load_fields(s: &[u8], widths: &[usize], values: &mut [u64])
    ensures { values.new ≡ sets values.old 0 (values_at 0 widths.now s.now) }
{
    // By index: of what a `zip` with `values.iter_mut()` writes a proof learns nothing.
    let mut place = 0;
    for i in 0..widths.len().min(values.len()) {
        let end = stores::end_of(place, widths[i], s.len());
        values[i] = load(&s[place..end]);
        place = end;
    }
}
