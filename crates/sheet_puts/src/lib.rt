// Numbers of a list, written into a buffer one after the other, as many as it holds. A buffer that is one longer than it need be
// tells by being full that there were too many.
//
// Buffer and place stay two parameters, with their bounds as clauses: a struct that holds a lent buffer is written through, so each routine
// up to the one that lends it would have to promise, beside its result, that the buffer in it is still the same one and as long, as `Wrote`
// of crates/sheet_bits does. A slice that is lent says so itself.
#![tactic(auto)]

ghost use Rattle.std.specs.Prelude.{◌≡◌, ◌+◌, ◌-◌, ◌*◌, ◌≤◌, min, ◌∷◌, [], length};
ghost use Rattle.rules.specs.SheetAnswers.{times};
ghost use Rattle.sheet_puts.specs.Put.{put, block};

// One number at a place, if there is room; the place after it.
pub fn push(out: &mut [i64], at: usize, z: i64) -> usize
    requires { at ≤ length out.old }
    ensures { (result ≡ min (length out.old) (at + 1))
        × (out.new ≡ put out.old at (z ∷ [])) }
{
    if at < out.len() {
        out[at] = z;
        return at + 1;
    }
    at
}

// J5: the numbers from `at` to `end`, which were just written, n times over: copied, as far as there is room, and never read again. (The
// loop stays by hand: it reads what it wrote a block before, which no iterator over the slice that is written lends, and `copy_within`
// copies one block, so that a loop over the blocks would stand round it and cut the last one short. n stays beside the
// buffer: it is no length, but how often the numbers are to stand. That it is at least 1 stays a clause:
// `NonZero` would say this bound, and 64 would be asked all the same; and that there are at most 258 places stays one, so that no sum
// overflows.)
pub fn repeat(out: &mut [i64], at: usize, end: usize, n: usize) -> usize
    requires { (at ≤ end) × (end ≤ length out.old) × (1 ≤ n) × (n ≤ 64) × (length out.old ≤ 258) }
    ensures { (result ≡ min (length out.old) (at + n * (end - at)))
        × (out.new ≡ put out.old at (times n (block out.old at end))) }
{
    let size = end - at;
    let all = at + n * size;
    let stop = out.len().min(all);
    for j in end..stop {
        out[j] = out[j - size];
    }
    stop
}
