// Waypoints and their differences, and the right side of an inner node that they give, module 3 of document 01. What the
// functions are held to stands in crates/rules/specs/Build.antt.
#![tactic(auto)]

ghost use Rattle.std.specs.Prelude.{◌≡◌, suc, ◌+◌, ◌*◌, ◌<◌, length};
ghost use Rattle.rules.specs.Floats.{◌⊗◌, ◌⊕◌, ◌⊖◌, ◌!◌};
ghost use Rattle.law_lists.specs.Lists.{listed};
ghost use Rattle.rules.specs.Solve.{entry};
ghost use Rattle.rules.specs.Build.{of_axis};

// B11: waypoint p of an axis: "Waypoints are column-major, axes by points". (The parameters stay loose, here and below: a caller may have
// an axis that is none of the axes, which `AxisWaypoints` excludes.)
pub fn waypoint(axes: usize, waypoints: &[f64], axis: usize, p: usize) -> f64
    requires { p * axes + axis < length waypoints.now }
    ensures { result ≡ waypoints.now ! (p * axes + axis) }
{
    waypoints[p * axes + axis]
}

// R1: "dy = right minus left waypoint", of segment i. (The parameters stay loose, and that the axis is one of the axes stays a clause, as
// above.)
pub fn dy(axes: usize, waypoints: &[f64], axis: usize, i: usize) -> f64
    requires { (axis < axes) × (suc i * axes + axis < length waypoints.now) }
    ensures { result ≡ waypoints.now ! (suc i * axes + axis) ⊖ waypoints.now ! (i * axes + axis) }
{
    waypoint(axes, waypoints, axis, i + 1) - waypoint(axes, waypoints, axis, i)
}

// B11: the waypoints of one axis, among those of all: "Waypoints are column-major, axes by points".
#[derive(Clone, Copy)]
pub struct AxisWaypoints<'a> {
    pub axes: usize,
    pub axis: usize,
    pub waypoints: &'a [f64],
    pub ghost below: { axis < axes },
}

impl<'a> AxisWaypoints<'a> {
    // B11: waypoint p. (It stays beside the function of that name, which has no `AxisWaypoints`.)
    pub fn waypoint(self, p: usize) -> f64
        requires { p * self.axes + self.axis < length self.waypoints.now }
        ensures { result ≡ of_axis self.entry.axes self.entry.waypoints.now self.entry.axis p }
    {
        waypoint(self.axes, self.waypoints, self.axis, p)
    }

    // R1: "dy = right minus left waypoint", of segment i. (It stays beside the function of that name, as above.)
    pub fn dy(self, i: usize) -> f64
        requires { suc i * self.axes + self.axis < length self.waypoints.now }
        ensures { result
            ≡ of_axis self.entry.axes self.entry.waypoints.now self.entry.axis (suc i)
            ⊖ of_axis self.entry.axes self.entry.waypoints.now self.entry.axis i }
    {
        dy(self.axes, self.waypoints, self.axis, i)
    }
}

// R5: "R[·,0] × dy before + R[·,1] × dy after", as many as `out` has room for.
pub fn compute_rhs(r: &[f64], dy_prev: f64, dy_next: f64, out: &mut [f64])
    requires { length r.now ≡ length out.old * 2 }
    ensures { out.new
        ≡ listed (length out.old) (λ k. entry 2 r.now k 0 ⊗ dy_prev ⊕ entry 2 r.now k 1 ⊗ dy_next) }
{
    for (k, x) in out.iter_mut().enumerate() {
        *x = r[k * 2] * dy_prev + r[k * 2 + 1] * dy_next;
    }
}
