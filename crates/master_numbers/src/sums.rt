// The sums of the equations: a segment's coefficients taken about its end. No binomial is multiplied with. Where each
// coefficient is added to the one below it, from the highest down, and that again and again, each time to one
// place less far, the same sums come out (Horner's scheme at 1). Order is 2m + 1, and m is a const parameter, so that the compiler
// unrolls every loop.
ghost use Rattle.std.specs.Prelude.{◌≡◌, ℕ, ◌+◌, ◌*◌, ◌^◌, ◌<◌, ◌≤◌, nat_abs, length};
ghost use Rattle.rules.specs.Master.{at, coefficient, at_end};
ghost use Rattle.master_numbers.specs.Sums.{Summable, AddedUp, sum_from};

// The coefficients of segment i, in an array with room for order 7: an array's size is not worked out from m.
fn coefficients<const M: usize>(table: &[i64], i: usize) -> [i64; 8]
    requires { (M ≤ 3) × (i ≤ 255) × (i * (2 * M + 2) + (2 * M + 2) ≤ length table.now) }
    ensures { (length result ≡ 8) × ((k : ℕ) → k < 2 * M + 2 → at result k ≡ coefficient M table.now i k) }
{
    let cells = 2 * M + 2;
    let from = i * cells;
    let mut c = [0; 8];
    c[..cells].copy_from_slice(&table[from..from + cells]);
    c
}

// Each number from a first place to a last one becomes the sum of those from there to the last.
fn add_up(b: &mut [i64], first: usize, last: usize)
    requires { (first ≤ last) × (last < length b.old) × ((k : ℕ) → first ≤ k → k ≤ last → nat_abs (sum_from b.old last k) < 2 ^ 63) }
    ensures { AddedUp first last b.old b.new }
{
    for k in (first..last).rev() {
        b[k] += b[k + 1];
    }
}

// R35: the sum of C(k,r) × coefficient k of segment i, for r = 0 to 2m. None of the sums on the way, of numbers within
// ±2^40, comes near 2^63.
pub fn sums_of<const M: usize>(table: &[i64], i: usize) -> [i64; 8]
    requires { Summable M table.now i }
    ensures { (r : ℕ) → r < 2 * M + 1 → at result r ≡ at_end M table.now i r }
{
    let last = 2 * M + 1;
    let mut b = coefficients::<M>(table, i);
    for r in 0..last {
        add_up(&mut b, r, last);
    }
    b
}

// The same where m is known only when the program runs. (The match stays, since no number becomes a const parameter, and so do the three
// parameters.)
pub fn sums(m: usize, table: &[i64], i: usize) -> [i64; 8]
    requires { Summable m table.now i }
    ensures { (r : ℕ) → r < 2 * m + 1 → at result r ≡ at_end m table.now i r }
{
    match m {
        0 => sums_of::<0>(table, i),
        1 => sums_of::<1>(table, i),
        2 => sums_of::<2>(table, i),
        _ => sums_of::<3>(table, i),
    }
}
