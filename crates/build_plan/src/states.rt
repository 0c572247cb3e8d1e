// A state at an end of the curve, and the numbers that it gives an axis's first or last node.
ghost use Rattle.std.specs.Prelude.{◌≡◌, ◌+◌, ◌<◌, length};
ghost use Rattle.law_lists.specs.Lists.{listed};
ghost use Rattle.rules.specs.Build.{divided, boundary_number};
ghost use Rattle.build_plan.specs.Given.{HasNumbers};

use rules::BoundaryState;

// B12: a state, or none, with the slice that has its numbers.
#[derive(Clone, Copy)]
pub struct EndState<'a> {
    pub state: Option<BoundaryState>,
    pub numbers: &'a [f64],
}

// R20: x divided so many times, one division after another.
#[tactic(auto, unfolding(rules::specs::Build::divided))]
fn divided(times: usize, x: f64, by: f64) -> f64
    ensures { result ≡ divided times x by }
{
    let mut y = x;
    for _k in 0..times {
        y = y / by;
    }
    y
}

impl<'a> EndState<'a> {
    // R19, R20, B12: column r of an axis: zero where the state is none, and in segment units where it is marked per unit of s.
    // (That it is one of the axes stays a clause, as below.)
    #[tactic(auto, using(rules::proofs::Cells::read), unfolding(rules::specs::Build::boundary_number))]
    fn number(self, axes: usize, inv_ds: f64, axis: usize, r: usize) -> f64
        requires { (axis < axes) × HasNumbers axes (r + 1) self }
        ensures { result ≡ boundary_number axes inv_ds self.entry.state self.entry.numbers.now axis r }
    {
        match self.state {
            None => 0.0,
            Some(state) => {
                let x = self.numbers[r * axes + axis];
                if state.per_unit_of_s {
                    divided(r + 1, x, inv_ds)
                } else {
                    x
                }
            }
        }
    }

    // The m numbers of an axis, as many as `out` has room for.
    // (That it is one of the axes stays a clause: a struct of both numbers, with that as its ghost field, would be made in the one function
    // that calls this, `both_ends` of crates/build_filling, which would need the same clause to make it.)
    pub fn axis_numbers(self, axes: usize, inv_ds: f64, axis: usize, out: &mut [f64])
        requires { (axis < axes) × HasNumbers axes (length out.old) self }
        ensures { out.new
            ≡ listed (length out.old)
            (boundary_number axes inv_ds self.entry.state self.entry.numbers.now axis) }
    {
        for (r, x) in out.iter_mut().enumerate() {
            *x = self.number(axes, inv_ds, axis, r);
        }
    }
}
