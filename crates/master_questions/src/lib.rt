// Document 01's questions before a master check. The last one, whether every number is within ±2^40, is asked
// here of the waypoints and of both states; of the table it is asked segment by segment, in the pass over it.
#![tactic(auto)]

ghost use Rattle.std.specs.Prelude.{◌≡◌, ◌&&◌, ◌∷◌, [], eqb, length};
ghost use Rattle.law_lists.specs.Lists.{all};
ghost use Rattle.rules.specs.Questions.{ask, first_no, number_answered};
ghost use Rattle.rules.specs.Master.{within};
ghost use Rattle.master_questions.specs.Asked.{questions_before};
ghost use Rattle.master_questions.specs.Lists.{set_with};

use lists::MasterLists;
use master_numbers::range::all_within;
use questions::size_questions;
use rules::PathError;

pub mod lists;

// The last question, of all but the table.
fn given_within(lists: MasterLists) -> bool
    ensures { result ≡ (all within lists.entry.waypoints.now && all within lists.entry.start.now && all within lists.entry.end.now) }
{
    all_within(lists.waypoints) && all_within(lists.start) && all_within(lists.end)
}

// M4, M5: does each state have m numbers?
fn states_fit(m: usize, lists: MasterLists) -> bool
    ensures { result ≡ (eqb (length lists.entry.start.now) m && eqb (length lists.entry.end.now) m) }
{
    lists.start.len() == m && lists.end.len() == m
}

// M6, M7: the no to the last two questions.
#[tactic(auto, unfolding(rules::specs::Questions::first_no))]
fn table_and_range(fits: bool, in_range: bool) -> Result<(), PathError>
    ensures { number_answered result ≡ first_no (ask fits 2 ∷ ask in_range 4 ∷ []) }
{
    if !fits {
        return Err(PathError::InvalidLength); // M6: the table
    }
    if !in_range {
        return Err(PathError::InvalidArgument); // M7: a number
    }
    Ok(())
}

// The first no is the refusal, whatever the table's numbers are.
pub fn master_questions(order: usize, lists: MasterLists) -> Result<(), PathError>
    ensures { number_answered result ≡ first_no (questions_before (set_with order lists.entry)) }
{
    let points = lists.waypoints.len();
    size_questions(order, points)?; // M1, M2, M3
    let m = (order - 1) / 2;
    if !states_fit(m, lists) {
        return Err(PathError::DimensionMismatch); // M4, M5
    }
    let fits = lists.table.len() == (points - 1) * (order + 1);
    table_and_range(fits, given_within(lists))
}
