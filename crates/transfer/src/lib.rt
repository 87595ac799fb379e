// Joining: the parts of a file, as they arrive over a radio that drops and resumes, are put together in a buffer.
#![tactic(auto)]

ghost use Rattle.std.specs.Prelude.{◌≡◌};
ghost use Rattle.transfer.specs.Join.{agree, number_of, joined_in, joined, buffer_after};

// Why a part is refused, under document 01's numbers.
#[derive(Clone, Copy, Debug, PartialEq, Eq)]
pub enum Unjoined {
    Gap = 14,
    NoRoom = 15,
    Differs = 16,
}

impl Unjoined {
    // Its number: a method, since `u8::from` would not say at a call which number is meant.
    pub fn number(self) -> u8
        ensures { result ≡ number_of self }
    {
        self as u8
    }
}

// Joins the part, cut at `offset`, to the first `held` bytes of the buffer, and answers how many are held then. A part that is refused
// leaves the buffer as it was. Buffer and count are two, as munasirel_join is lent them: behind what is held there is room.
pub fn join(buffer: &mut [u8], held: usize, offset: usize, part: &[u8]) -> Result<usize, Unjoined>
    ensures value { joined_in held result ≡ joined buffer.old held offset part.now }
    ensures buffer_after { buffer.new ≡ buffer_after buffer.old held offset part.now }
{
    let size = buffer.len();
    let length = part.len();
    if size < held {
        return Err(Unjoined::NoRoom);
    }
    if held < offset {
        return Err(Unjoined::Gap);
    }
    // A difference, since the sum could wrap.
    if size - offset < length {
        return Err(Unjoined::NoRoom);
    }
    if !agrees(&buffer[offset..held], part) {
        return Err(Unjoined::Differs);
    }
    let end = offset + length;
    if end <= held {
        return Ok(held);
    }
    buffer[held..end].copy_from_slice(&part[held - offset..]);
    Ok(end)
}

// The part agrees with the bytes held behind its offset, as far as both reach.
fn agrees(held: &[u8], part: &[u8]) -> bool
    ensures { result ≡ agree held.now part.now }
{
    let both = held.len().min(part.len());
    held[..both] == part[..both]
}
