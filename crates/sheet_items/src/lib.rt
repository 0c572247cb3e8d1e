// Items and lists of a job sheet. An item is a number or an `again` form, and a form holds a list: so the item routine and the list routine
// call each other, by `form` and `items` between them, and the bytes that remain fall. A list's items are read in a loop, so the calls are
// as deep as forms stand inside one another, which is four at the most. The numbers go into a buffer, as many as it holds. (Buffer and
// place stay two parameters, `out` and `at`, and what is asked of them stays two clauses: a form's list is written from one place on and up
// to another, so a struct of buffer and place would have a second place beside it, and each contract would say in addition that the struct
// still holds the buffer that was lent. Cursor and depth stay two parameters: the cursor goes on, the depth is another in each form.)
#![tactic(auto)]

ghost use Rattle.std.specs.Prelude.{◌≡◌, ◌≤◌, cond, length, ltb, slice_get, Some};
ghost use Rattle.sheet_reading.specs.Says.{Stands};
ghost use Rattle.sheet_items.specs.Says.{Opened, NumberFilled, ItemFilled, ListFilled, Following};

use rules::{PathError, SheetError};
use sheet_reading::{Count, Cursor, invalid_sheet};

// J7: "at most 4 `again` forms inside one another". (It stays apart from the 4 of crates/sheet_sizes, which is a state's 4th number.)
const MOST_DEEP: usize = 4;

// J4, J7, J21: the heading of a form, from its bracket up to its list: the count. Inside four forms it is refused.
fn open_form(cursor: &mut Cursor, depth: usize) -> Result<usize, SheetError>
    requires { slice_get cursor.old.text.now cursor.old.at ≡ Some 40 }
    ensures same { cursor.new.text.now ≡ cursor.old.text.now }
    ensures says { Opened cursor.old.text.now cursor.old.at depth cursor.new.at result }
    ensures stands { Stands cursor.new.at result }
{
    if MOST_DEEP <= depth {
        return Err(SheetError {
            cause: PathError::SheetTooDeep,
            at: cursor.at,
        });
    }
    cursor.at += 1;
    sheet_counts::head(cursor)
}

// A number as an item.
fn number_item(cursor: &mut Cursor, out: &mut [i64], at: usize) -> Result<usize, SheetError>
    requires { at ≤ length out.old }
    ensures same { cursor.new.text.now ≡ cursor.old.text.now }
    ensures says { NumberFilled cursor.old.text.now cursor.old.at out.old at cursor.new.at result out.new }
    ensures stands { Stands cursor.new.at result }
{
    let z = sheet_numbers::number(cursor)?;
    Ok(sheet_puts::push(out, at, z))
}

// J2: what follows an item: one space and another item, which is told by `true`, or the bracket that closes the list.
fn more(cursor: &mut Cursor) -> Result<bool, SheetError>
    ensures same { cursor.new.text.now ≡ cursor.old.text.now }
    ensures says { Following cursor.old.text.now cursor.old.at cursor.new.at result }
    ensures stands { Stands cursor.new.at result }
{
    if cursor.eat(b' ') {
        return Ok(true);
    }
    if cursor.eat(b')') {
        return Ok(false);
    }
    Err(invalid_sheet(cursor.at))
}

// The later place where there is still room, else the one before.
fn later(end: usize, room: usize, place: usize, over: usize) -> usize
    ensures { result ≡ cond (ltb end room) place over }
{
    if end < room { place } else { over }
}

// F12, J4, J5: a form inside `depth` others, and where its numbers end in the buffer: the list routine is called, and what it has written is
// written n times over.
#[cycle(item_list)]
fn form(cursor: &mut Cursor, depth: usize, out: &mut [i64], at: usize) -> Result<usize, SheetError>
    requires { (slice_get cursor.old.text.now cursor.old.at ≡ Some 40) × (at ≤ length out.old) × (length out.old ≤ 258) }
    ensures same { cursor.new.text.now ≡ cursor.old.text.now }
    ensures says { ItemFilled cursor.old.text.now cursor.old.at depth out.old at cursor.new.at result out.new }
    ensures stands { Stands cursor.new.at result }
{
    let times = open_form(cursor, depth)?;
    let inner = list(cursor, depth + 1, out, at)?;
    Ok(sheet_puts::repeat(out, at, inner.numbers, times))
}

// F12, J4: an item inside `depth` forms, and where its numbers end in the buffer. (A form moves a copy of the cursor, which is put back,
// read or refused: see `list`.)
#[cycle(item_list)]
fn item(cursor: &mut Cursor, depth: usize, out: &mut [i64], at: usize) -> Result<usize, SheetError>
    requires { (at ≤ length out.old) × (length out.old ≤ 258) }
    ensures same { cursor.new.text.now ≡ cursor.old.text.now }
    ensures says { ItemFilled cursor.old.text.now cursor.old.at depth out.old at cursor.new.at result out.new }
    ensures stands { Stands cursor.new.at result }
{
    if cursor.byte() != Some(b'(') {
        return number_item(cursor, out, at);
    }
    let mut inside = *cursor;
    let end = form(&mut inside, depth, out, at);
    *cursor = inside;
    end
}

// F12, J6: the items of a list inside `depth` forms, and its closing bracket: one after the other, each read by the item routine. (The
// loop stays: an iterator over the items would have to hold both the cursor and the buffer.)
#[cycle(item_list)]
fn items(cursor: &mut Cursor, depth: usize, out: &mut [i64], at: usize) -> Result<Count, SheetError>
    requires { (at ≤ length out.old) × (length out.old ≤ 258) }
    ensures same { cursor.new.text.now ≡ cursor.old.text.now }
    ensures says { ListFilled cursor.old.text.now cursor.old.at depth out.old at cursor.new.at result out.new }
    ensures stands { Stands cursor.new.at result }
{
    let mut numbers = at;
    let mut over = cursor.at;
    loop {
        over = later(numbers, out.len(), cursor.at, over);
        numbers = item(cursor, depth, out, numbers)?;
        if !more(cursor)? {
            return Ok(Count { numbers, over });
        }
    }
}

// F12, J6: a list inside `depth` forms, with its closing bracket. (The items move a copy of the cursor, which is put back, read or
// refused: with the cursor itself, sheets took 1.1 to 1.3 times as long.)
#[cycle(item_list)]
pub fn list(
    cursor: &mut Cursor,
    depth: usize,
    out: &mut [i64],
    at: usize,
) -> Result<Count, SheetError>
    requires { (at ≤ length out.old) × (length out.old ≤ 258) }
    ensures same { cursor.new.text.now ≡ cursor.old.text.now }
    ensures says { ListFilled cursor.old.text.now cursor.old.at depth out.old at cursor.new.at result out.new }
    ensures stands { Stands cursor.new.at result }
{
    let mut here = *cursor;
    let read = items(&mut here, depth, out, at);
    *cursor = here;
    read
}
