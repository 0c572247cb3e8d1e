// What every routine on masters needs: the range of whole numbers, and a segment's coefficients taken about its end. The sums are
// not open to callers of the library: they are lent numbers in range.
#![tactic(auto)]

pub mod range;
pub mod sums;
