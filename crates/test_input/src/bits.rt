// Floats and their bits, where every NaN is one.
ghost use Rattle.std.specs.Prelude.{◌≡◌};
ghost use Rattle.std.specs.Float.{binary64};
ghost use Rattle.std.specs.Float.Ieee.{nan_bits};

fn is_nan(bits: u64) -> bool
    ensures { result ≡ nan_bits binary64 bits }
{
    0x7ff0_0000_0000_0000 < bits % 0x8000_0000_0000_0000
}

// Every NaN's bits are read as the one NaN.
pub fn float(bits: u64) -> f64 {
    if is_nan(bits) {
        f64::NAN
    } else {
        f64::from_bits(bits)
    }
}

// Every NaN has the bits of the one that is written 7ff8000000000000. (It stays beside that of crates/sheet_bits, whose bits the trials of
// sheets judge: a fault in one for both would not be seen.)
pub fn bits_of(x: f64) -> u64 {
    if x.is_nan() {
        0x7ff8_0000_0000_0000
    } else {
        x.to_bits()
    }
}

// (It stays beside `==`, by which no NaN is equal to itself and the two zeros are equal.)
pub fn same(x: f64, y: f64) -> bool {
    bits_of(x) == bits_of(y)
}
