// The bit cursor: a lent body and the place of the next bit in it. `bit_at` does the work on plain values; the cursor's methods are thin.
// Beside it the window: 64 bits of a body at once, for blocks of coefficients.
#![tactic(auto)]

ghost use Rattle.std.specs.Prelude.{◌≡◌, ◌+◌, ◌-◌, ◌*◌, ◌/◌, ◌%◌, ◌^◌, ◌<◌, ◌≤◌, length};
ghost use Rattle.bitplane.specs.Bits.{bit_at, gathered};
ghost use Rattle.cursor.specs.Cursor.{over, bit_here, place_after, moved};

#[derive(Clone, Copy)]
pub struct BitCursor<'a> {
    body: &'a [u8],
    at: usize,
}

// The bit at a place, highest bit of a byte first, and 0 past the end.
#[tactic(auto, unfolding(bitplane::specs::Bits::bit_at))]
pub fn bit_at(body: &[u8], at: usize) -> usize
    ensures { result ≡ bit_at body.now at }
{
    match body.get(at / 8) {
        Some(byte) => (*byte as usize >> (7 - at % 8)) % 2,
        None => 0,
    }
}

impl<'a> BitCursor<'a> {
    // The cursor over a body at a place.
    pub fn new(body: &'a [u8], at: usize) -> BitCursor<'a>
        ensures { result ≡ over body.entry at }
    {
        BitCursor { body, at }
    }

    // The cursor's place.
    pub fn at(self) -> usize
        ensures { result ≡ self.entry.at }
    {
        self.at
    }

    // The bit at the cursor's place, and 0 past the end.
    pub fn bit(self) -> usize
        ensures { result ≡ bit_here self.entry }
    {
        bit_at(self.body, self.at)
    }

    // The cursor, one place further. The largest place stays, so that a cursor can always be moved.
    pub fn next(self) -> BitCursor<'a>
        ensures { result ≡ moved self.entry }
    {
        BitCursor {
            body: self.body,
            at: self.at.saturating_add(1),
        }
    }
}

// The bits of the 8 bytes from byte k on as one number, the first its highest digit.
pub fn window(body: &[u8], k: usize) -> u64
    requires { k + 8 ≤ length body.now }
    ensures { result ≡ gathered (bit_at body.now) (8 * k) 64 }
{
    u64::from_be_bytes([
        body[k],
        body[k + 1],
        body[k + 2],
        body[k + 3],
        body[k + 4],
        body[k + 5],
        body[k + 6],
        body[k + 7],
    ])
}

// The n bits of a window that stand behind its first o, as a number.
pub fn digits(window: u64, o: u64, n: u64) -> u64
    requires { (0 < n) × (n < 64) × (o + n ≤ 64) }
    ensures { result ≡ window / 2 ^ (64 - (o + n)) % 2 ^ n }
{
    (window >> (64 - (o + n))) % (1 << n)
}
