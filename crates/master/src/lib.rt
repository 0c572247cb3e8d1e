// The check of masters, module 7 of document 01: one axis in whole numbers. It asks its questions, then
// goes over the table once, segment by segment. What it is held to stands in crates/rules/specs/Master.antt.
#![tactic(auto)]

ghost use Rattle.std.specs.Prelude.{◌≡◌, length};
ghost use Rattle.rules.specs.Master.{check_master, master_says};
ghost use Rattle.master_equations.specs.Segment.{Shaped};
ghost use Rattle.master_questions.specs.Lists.{set_with};
ghost use Rattle.master.specs.Pass.{pass_says};

use master_equations::{MasterSegments, meets_start_of};
use master_questions::lists::MasterLists;
use master_questions::master_questions;
use master_segments::check_segment_of;
use rules::PathError;

// A1, M8: whether an answer is yes. (It stays a function: a no is not a refusal, so std's `is_ok` is another question.)
#[tactic(auto, unfolding(rules::specs::Master::master_says))]
pub fn is_yes(answer: Result<bool, PathError>) -> bool
    ensures { result ≡ (master_says answer).good }
{
    match answer {
        Ok(yes) => yes,
        Err(_) => false,
    }
}

// M8: whether an answer is a refusal. (It stays beside `is_yes`, with what the check's definition says of it.)
#[tactic(auto, unfolding(rules::specs::Master::master_says))]
pub fn is_refused(answer: Result<bool, PathError>) -> bool
    ensures { result ≡ (master_says answer).refused }
{
    match answer {
        Ok(_) => false,
        Err(_) => true,
    }
}

// The pass over the table. A number out of range is a refusal wherever it stands, so a segment that does not
// meet its equations does not end the pass.
#[tactic(auto, using(crate::proofs::Pass::by_segments))]
fn check_segments<const M: usize>(lists: MasterLists) -> Result<bool, PathError>
    requires { Shaped M lists.waypoints.now lists.end.now lists.table.now × (length lists.start.now ≡ M) }
    ensures { let l = lists.entry in master_says result ≡ pass_says M l.waypoints.now l.start.now l.end.now l.table.now }
{
    let segments = MasterSegments::<M> {
        waypoints: lists.waypoints,
        end: lists.end,
        table: lists.table,
    };
    let mut good = meets_start_of::<M>(lists.start, lists.table);
    for i in 0..lists.waypoints.len() - 1 {
        good = check_segment_of(good, segments, i)?;
    }
    Ok(good)
}

// A1, D1, M8, M9, M10: the check. It reads what it is given and writes nothing. (The match stays: m is a const parameter of the pass, and no
// number becomes one.)
#[tactic(auto, using(crate::proofs::Pass::by_orders))]
pub fn check_master(order: usize, lists: MasterLists) -> Result<bool, PathError>
    ensures { master_says result ≡ check_master (set_with order lists.entry) }
{
    master_questions(order, lists)?;
    match order {
        3 => check_segments::<1>(lists),
        5 => check_segments::<2>(lists),
        _ => check_segments::<3>(lists),
    }
}
