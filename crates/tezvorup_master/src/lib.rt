// What C and Rust call to check a master. It is thin and takes any operands; what its record stands for is in
// crates/tezvorup_records.
#![tactic(auto)]

ghost use Rattle.std.specs.Prelude.{◌≡◌};
ghost use Rattle.rules.specs.Master.{set_of, check_master};
ghost use Rattle.tezvorup_records.specs.Meaning.{check_of};

use master_questions::lists::MasterLists;
use tezvorup_records::RawCheck;

// A1, M8: the check of masters (document 01, module 7), over one axis in whole numbers. (The lists stay apart, as the header has them
// for C.)
#[unsafe(no_mangle)]
pub extern "C" fn spline_check_master(
    order: usize,
    waypoints: &[i64],
    start: &[i64],
    end: &[i64],
    table: &[i64],
) -> RawCheck
    ensures { let set = set_of order waypoints.now start.now end.now table.now in
        result ≡ check_of (check_master set) }
{
    let lists = MasterLists {
        waypoints,
        start,
        end,
        table,
    };
    RawCheck::from(master::check_master(order, lists))
}
