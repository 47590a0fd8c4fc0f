// Numbers and zeros in the bytes of a record (document 01, "Records": "numbers least significant byte first").
ghost use Rattle.std.specs.Prelude.{◌≡◌, ◌++◌, ◌+◌, ◌^◌, ◌<◌, ◌≤◌, eqb, length, replicate};
ghost use Rattle.model.specs.Records.{number_at, number_bytes};
ghost use Rattle.records.specs.Written.{written};

// The number in the N bytes from a place on. The last byte counts most.
pub fn read<const N: usize>(s: &[u8], at: usize) -> u32
    requires { (N ≤ 4) × (at + N ≤ length s.now) }
    ensures { (result ≡ number_at s.now at N) × (result < 256 ^ N) }
{
    let mut n = 0;
    for i in (0..N).rev() {
        n = 256 * n + u32::from(s[at + i]);
    }
    n
}

// Whether `count` bytes from a place on are zero: "Bytes not named must be zero."
pub fn blank(s: &[u8], from: usize, count: usize) -> bool
    requires { from + count ≤ length s.now }
    ensures { result ≡ eqb (number_at s.now from count) 0 }
{
    s[from..from + count].iter().all(|x| *x == 0)
}

// Writes a number into the N bytes from a place on; no other byte changes. Writers take the buffer and a place, not the part: what they promise is of
// the whole buffer.
pub fn put<const N: usize>(b: &mut [u8], at: usize, v: u32)
    requires { (N ≤ 4) × (at + N ≤ length b.old) }
    ensures { b.new ≡ written b.old at (number_bytes N v) }
{
    b[at..at + N].copy_from_slice(&v.to_le_bytes()[..N]);
}

// Writes two numbers of four bytes each, one behind the other; no other byte changes.
pub fn put_pair(b: &mut [u8], at: usize, first: u32, second: u32)
    requires { at + 8 ≤ length b.old }
    ensures { b.new ≡ written b.old at (number_bytes 4 first ++ number_bytes 4 second) }
{
    put::<4>(b, at, first);
    put::<4>(b, at + 4, second);
}

// Writes `count` zeros from a place on; no other byte changes.
pub fn put_blank(b: &mut [u8], at: usize, count: usize)
    requires { at + count ≤ length b.old }
    ensures { b.new ≡ written b.old at (replicate count 0) }
{
    b[at..at + count].fill(0);
}
