// The numbers of the program's output, written in decimal onto a page, after fixed bytes (crates/sheet_bits).
#![tactic(auto)]

ghost use Rattle.std.specs.Prelude.{◌++◌};
ghost use Rattle.rules.specs.Sheets.{natural};
ghost use Rattle.sheet_bits.specs.Page.{HasRoom, Wrote};

use sheet_bits::Page;

// J10, J11, J12: a number in decimal, whose digits are itoa's. (That they go onto a page, and not by `write!`, stays: crates/sheet_bits
// says why.)
#[tactic(auto, using(crate::proofs::Decimal::natural_is))]
fn put_decimal(page: &mut Page, n: usize)
    requires { HasRoom page.old (natural n) }
    ensures { Wrote page.old (natural n) page.new }
{
    let mut buffer = itoa::Buffer::new();
    page.put_bytes(buffer.format(n).as_bytes());
}

// J10, J11, J12: a number, after fixed bytes. (Printing stays by hand, as crates/sheet_bits says, and n counts none of the bytes: it is
// printed.)
pub fn put_number(page: &mut Page, bytes: &[u8], n: usize)
    requires { HasRoom page.old (bytes.now ++ natural n) }
    ensures { Wrote page.old (bytes.now ++ natural n) page.new }
{
    page.put_bytes(bytes);
    put_decimal(page, n);
}
