//! Fields of up to 32 bits at any place of a slice of bytes, most significant bit first.
//! A field is read and written through one word: of 8 bytes, or of just those that it touches where the slice is shorter.

#![tactic(auto)]

ghost use Rattle.std.specs.Prelude.{◌≡◌, ℕ, ◌+◌, ◌-◌, ◌*◌, ◌/◌, ◌%◌, ◌^◌, ◌<◌, ◌≤◌, length};
ghost use Rattle.bits.specs.Field.{field, put};
ghost use Rattle.bits.specs.Laws.{FieldSplits, LengthKept, OthersKept, OwnKept, ReadsBack};

/// The number that the `width` bits from place `at` on write.
pub fn read_field(bytes: &[u8], at: usize, width: u32) -> u32
    requires narrow { width ≤ 32 }
    requires inside { at + width ≤ 8 * length bytes.now }
    ensures { result ≡ field bytes.now at width }
{
    // A field of no bits has no window: it could ask for a shift by 64.
    if width == 0 {
        return 0;
    }
    if bytes.len() < 8 {
        return Window::around(at, width).read_short(bytes);
    }
    Window::over(bytes.len(), at, width).read(bytes)
}

/// Makes the `width` bits from place `at` on the lowest bits of `value`, and leaves every other bit as it is.
pub fn write_field(bytes: &mut [u8], at: usize, width: u32, value: u32)
    requires narrow { width ≤ 32 }
    requires inside { at + width ≤ 8 * length bytes.old }
    ensures { bytes.new ≡ put bytes.old at width value }
{
    if width == 0 {
        return;
    }
    if bytes.len() < 8 {
        Window::around(at, width).write_short(bytes, value);
        return;
    }
    Window::over(bytes.len(), at, width).write(bytes, value);
}

/// Has no work to do: its contract states the laws of fields, so that the crate is built only with their proofs.
pub fn field_laws()
    ensures splits { FieldSplits }
    ensures reads_back { ReadsBack }
    ensures others_kept { OthersKept }
    ensures length_kept { LengthKept }
    ensures own_kept { OwnKept }
{}

/// The bytes through which a field is read and written, as one word: the index of the first one and of the one after the
/// last, how many bits of the word follow the field, and how wide the field is.
#[derive(Clone, Copy)]
struct Window {
    first: usize,
    end: usize,
    below: u32,
    width: u32,
    ghost few: { end ≤ first + 8 },
    ghost some_bits: { 0 < width },
    ghost narrow: { width ≤ 32 },
    ghost inside: { below + width ≤ 8 * (end - first) },
}

impl Window {
    /// The 8 bytes that begin where the field does, or else the last 8 of a slice of `size` bytes.
    fn over(size: usize, at: usize, width: u32) -> Window
        requires long { 8 ≤ size }
        requires some_bits { 0 < width }
        requires narrow { width ≤ 32 }
        requires inside { at + width ≤ 8 * size }
        ensures bytes { result.end ≤ size }
        ensures eight { result.end ≡ result.first + 8 }
        ensures place { 8 * result.end - result.below - result.width ≡ at }
        ensures same_width { result.width ≡ width }
    {
        let first = (at / 8).min(size - 8);
        Window {
            first,
            end: first + 8,
            below: 64 - (at - 8 * first) as u32 - width,
            width,
        }
    }

    /// Just the bytes that the field touches.
    fn around(at: usize, width: u32) -> Window
        requires some_bits { 0 < width }
        requires narrow { width ≤ 32 }
        requires near { at + width ≤ 64 }
        ensures touched { result.below < 8 }
        ensures place { 8 * result.end - result.below - result.width ≡ at }
        ensures same_width { result.width ≡ width }
    {
        let last = at + width as usize - 1;
        Window {
            first: at / 8,
            end: last / 8 + 1,
            below: 7 - (last % 8) as u32,
            width,
        }
    }

    /// The field's bits of the word.
    fn cut(self, word: u64) -> u32
        ensures { result ≡ word / 2 ^ self.below % 2 ^ self.width }
    {
        ((word >> self.below) & ((1 << self.width) - 1)) as u32
    }

    /// The word with the field's bits made those of `value`: it flips the bits that differ.
    fn patched(self, word: u64, value: u32) -> u64
        ensures { result ≡ (word / 2 ^ self.below / 2 ^ self.width * 2 ^ self.width + value % 2 ^ self.width) * 2 ^ self.below + word % 2 ^ self.below }
    {
        let mask = (1 << self.width) - 1;
        let changed = ((word >> self.below) ^ u64::from(value)) & mask;
        word ^ (changed << self.below)
    }

    /// The number that the field writes.
    fn read(self, bytes: &[u8]) -> u32
        requires eight { self.end ≡ self.first + 8 }
        requires inside { self.end ≤ length bytes.now }
        ensures { result ≡ field bytes.now (8 * self.end - self.below - self.width) self.width }
    {
        self.cut(load(bytes, self.first))
    }

    /// Makes the field the lowest bits of `value`.
    fn write(self, bytes: &mut [u8], value: u32)
        requires eight { self.end ≡ self.first + 8 }
        requires inside { self.end ≤ length bytes.old }
        ensures { bytes.new ≡ put bytes.old (8 * self.end - self.below - self.width) self.width value }
    {
        let new = self.patched(load(bytes, self.first), value);
        store(bytes, self.first, new);
    }

    /// What `read` does, for a window of fewer bytes.
    fn read_short(self, bytes: &[u8]) -> u32
        requires inside { self.end ≤ length bytes.now }
        ensures { result ≡ field bytes.now (8 * self.end - self.below - self.width) self.width }
    {
        self.cut(load_short(bytes, self.first, self.end))
    }

    /// What `write` does, for a window of fewer bytes.
    fn write_short(self, bytes: &mut [u8], value: u32)
        requires inside { self.end ≤ length bytes.old }
        ensures { bytes.new ≡ put bytes.old (8 * self.end - self.below - self.width) self.width value }
    {
        let new = self.patched(load_short(bytes, self.first, self.end), value);
        store_short(bytes, self.first, self.end, new);
    }
}

/// The number that 8 bytes write, the first the most significant; it compiles to one load and a byte swap.
fn load(bytes: &[u8], first: usize) -> u64
    requires inside { first + 8 ≤ length bytes.now }
    ensures { result ≡ field bytes.now (8 * first) 64 }
{
    u64::from_be_bytes(*bytes[first..first + 8].as_array().unwrap())
}

/// Makes 8 bytes those of `word`, the first the most significant; it compiles to a byte swap and one store.
fn store(bytes: &mut [u8], first: usize, word: u64)
    requires inside { first + 8 ≤ length bytes.old }
    ensures { bytes.new ≡ put bytes.old (8 * first) 64 word }
{
    bytes[first..first + 8].copy_from_slice(&word.to_be_bytes());
}

/// What `load` does, for the bytes from `first` up to `end`. A narrow field mostly lies in one.
fn load_short(bytes: &[u8], first: usize, end: usize) -> u64
    requires some { first < end }
    requires few { end ≤ first + 8 }
    requires inside { end ≤ length bytes.now }
    ensures { result ≡ field bytes.now (8 * first) (8 * (end - first)) }
{
    if first + 1 == end {
        u64::from(bytes[first])
    } else {
        load_each(bytes, first, end)
    }
}

/// What `store` does, for the bytes from `first` up to `end`. A narrow field mostly lies in one.
fn store_short(bytes: &mut [u8], first: usize, end: usize, word: u64)
    requires some { first < end }
    requires inside { end ≤ length bytes.old }
    ensures { bytes.new ≡ put bytes.old (8 * first) (8 * (end - first)) word }
{
    if first + 1 == end {
        bytes[first] = (word & 0xff) as u8;
    } else {
        store_each(bytes, first, end, word);
    }
}

/// What `load_short` does, byte by byte. Out of line and called cold, so that one byte costs no more than itself.
#[cold]
#[inline(never)]
fn load_each(bytes: &[u8], first: usize, end: usize) -> u64
    requires order { first ≤ end }
    requires few { end ≤ first + 8 }
    requires inside { end ≤ length bytes.now }
    ensures { result ≡ field bytes.now (8 * first) (8 * (end - first)) }
{
    let mut word = 0;
    for byte in &bytes[first..end] {
        word = (word << 8) | u64::from(*byte);
    }
    word
}

/// What `store_short` does, byte by byte, the last one first. Out of line and called cold as `load_each` is.
#[cold]
#[inline(never)]
fn store_each(bytes: &mut [u8], first: usize, end: usize, word: u64)
    requires order { first ≤ end }
    requires inside { end ≤ length bytes.old }
    ensures { bytes.new ≡ put bytes.old (8 * first) (8 * (end - first)) word }
{
    let mut rest = word;
    for index in (first..end).rev() {
        bytes[index] = (rest & 0xff) as u8;
        rest >>= 8;
    }
}
