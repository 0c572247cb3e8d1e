// Demand 3: the table of a master is unique. The statement stands in specs/, its proof in proofs/. The function here
// is the check called twice, so that a caller has demand 3 as a promise of code.
#![tactic(auto)]

ghost use Rattle.std.specs.Prelude.{◌≡◌, ◌↔◌, true};
ghost use Rattle.rules.specs.Master.{master_says};
ghost use Rattle.master_questions.specs.Lists.{set_with};
ghost use Rattle.master_unique.specs.Both.{check_both};

use master::check_master;
use master_questions::lists::MasterLists;
use rules::PathError;

// A1, D3: does the check say yes to two sets of one order? Yes: to both, and then the tables are equal exactly when the waypoints,
// the start states and the end states are. No: it refuses neither, and says no to one or to both. Refused: it refuses the
// first set for this, or else the second.
pub fn both_yes(order: usize, one: MasterLists, other: MasterLists) -> Result<bool, PathError>
    ensures result_value { master_says result ≡ check_both (set_with order one.entry) (set_with order other.entry) }
    ensures variant { result ≡ Ok true
        → (one.entry.table.now ≡ other.entry.table.now)
        ↔ ((one.entry.waypoints.now ≡ other.entry.waypoints.now)
        × (one.entry.start.now ≡ other.entry.start.now)
        × (one.entry.end.now ≡ other.entry.end.now)) }
{
    let first = check_master(order, one)?;
    let second = check_master(order, other)?;
    Ok(first & second)
}
