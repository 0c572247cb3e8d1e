// The pieces of the program's output that are written as they are, onto a page: fixed bytes, and bits in hex.
//
// Bytes are put onto a page by hand, here and in the crates above, and so it stays: a lent buffer has room for them and nothing fails, while
// `write!` hands back a `Result` of which no clause of std says that it is `Ok`, so that each caller would have an error to answer that
// never comes.
#![tactic(auto)]

ghost use Rattle.std.specs.Prelude.{◌≡◌, ◌<◌, length};
ghost use Rattle.std.specs.Float.{binary64};
ghost use Rattle.std.specs.Float.Ieee.{to_bits};
ghost use Rattle.rules.specs.SheetAnswers.{hex_digit, hex};
ghost use Rattle.sheet_bits.specs.Page.{HasRoom, Wrote};
ghost use Rattle.sheet_bits.specs.Coefficients.{coefficient};

// A buffer that is lent, and the place up to which it is written. (The place stays a number beside the buffer: std's `Cursor` is that too,
// and a write to it hands back a `Result`, which each caller would have to take apart.)
#[derive(Drop)]
pub struct Page<'a> {
    pub buffer: &'a mut [u8],
    pub at: usize,
}

impl<'a> Page<'a> {
    // Nothing is written yet.
    pub fn new(buffer: &'a mut [u8]) -> Page<'a>
        ensures same_buffer { result.buffer.ghost_name ≡ buffer.entry.ghost_name }
        ensures as_lent { result.buffer.now ≡ buffer.old }
        ensures at_start { result.at ≡ 0 }
    {
        Page { buffer, at: 0 }
    }

    // J2, J10, J11, J12: fixed bytes.
    pub fn put_bytes(&mut self, bytes: &[u8])
        requires { HasRoom self.old bytes.now }
        ensures { Wrote self.old bytes.now self.new }
    {
        let end = self.at + bytes.len();
        self.buffer[self.at..end].copy_from_slice(bytes);
        self.at = end;
    }
}

// J11: the digits "in hex".
const DIGITS: [u8; 16] = *b"0123456789abcdef";

fn hex_digit(digit: u64) -> u8
    requires { digit < 16 }
    ensures { result ≡ hex_digit digit }
{
    DIGITS[digit as usize]
}

// J11: 64 bits as 16 digits, the highest first. (It stays a routine that writes into its part of the page: digits that were handed back in
// an array, to be put like other bytes, made the output of the longest table take 1.2 times as long. It stays beside the kit's crate hex, whose
// `encode_to_slice` hands back a `Result` and takes the bytes of a number: a lemma would have to carry what it says to `hex` of the rules.)
fn write_hex(places: &mut [u8], bits: u64)
    requires { length places.old ≡ 16 }
    ensures { places.new ≡ hex bits }
{
    for (j, place) in places.iter_mut().enumerate() {
        *place = hex_digit((bits >> (60 - 4 * j)) % 16);
    }
}

// The one NaN that the definitions know.
const NAN_BITS: u64 = 0x7ff8_0000_0000_0000;

// J11: "the bits of each coefficient". Every NaN has those of that one. (It stays a twin of the one in crates/test_input, with which the
// test programs compare: what they compare is not worked out by what they test.)
fn bits_of(x: f64) -> u64
    ensures { result ≡ to_bits binary64 x }
{
    if x.is_nan() { NAN_BITS } else { x.to_bits() }
}

// J11: a coefficient, after a space.
#[tactic(auto, using(crate::proofs::Hex::length_hex))]
pub fn put_coefficient(page: &mut Page, x: f64)
    requires { HasRoom page.old (coefficient x) }
    ensures { Wrote page.old (coefficient x) page.new }
{
    page.put_bytes(b" ");
    let end = page.at + 16;
    write_hex(&mut page.buffer[page.at..end], bits_of(x));
    page.at = end;
}
