// Little-endian numbers in a slice of bytes, read and stored at any place: behind the end zeros are read, and nothing is stored. Who reads
// reads many places of the same bytes, so that a struct of bytes and place would be made anew for each call. Zeros and no Option: the
// definitions over these, u16_at and table_in among them, read zeros behind the end. A function for each width: from_le_bytes is each
// type's own, so that one for both would match on the width.
#![tactic(auto)]

ghost use Rattle.std.specs.Prelude.{◌≡◌, [], ◌∷◌, ◌+◌, get_or};
ghost use Rattle.std.proofs.lemmas.List.Edits.{sets};
ghost use Rattle.numbers.specs.Bytes.{u16_at, u32_at, bytes_of, halves};

// The byte at a place.
pub fn byte_at(bytes: &[u8], at: usize) -> u8
    ensures { result ≡ get_or bytes.now at 0 }
{
    bytes.get(at).copied().unwrap_or(0)
}

// The number of 16 bits at a place.
pub fn u16_at(bytes: &[u8], at: usize) -> u16
    ensures { result ≡ u16_at bytes.now at }
{
    if bytes.len() <= at {
        return 0;
    }
    u16::from_le_bytes([bytes[at], byte_at(bytes, at + 1)])
}

// The number of 32 bits at a place.
pub fn u32_at(bytes: &[u8], at: usize) -> u32
    ensures { result ≡ u32_at bytes.now at }
{
    if bytes.len() <= at {
        return 0;
    }
    u32::from_le_bytes([
        bytes[at],
        byte_at(bytes, at + 1),
        byte_at(bytes, at + 2),
        byte_at(bytes, at + 3),
    ])
}

// A number of 16 bits at a place; all other bytes stay.
pub fn put(out: &mut [u8], at: usize, n: u16)
    ensures { out.new ≡ sets out.old at (bytes_of (n ∷ [])) }
{
    if out.len() <= at {
        return;
    }
    let [low, high] = n.to_le_bytes();
    out[at] = low;
    if at + 1 < out.len() {
        out[at + 1] = high;
    }
}

// A number of 32 bits at a place, as two of 16; all other bytes stay.
pub fn put32(out: &mut [u8], at: usize, n: u32)
    ensures { out.new ≡ sets out.old at (bytes_of (halves n [])) }
{
    if out.len() <= at {
        return;
    }
    put(out, at, (n % 65536) as u16);
    put(out, at + 2, (n / 65536) as u16);
}
