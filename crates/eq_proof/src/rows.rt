//! Lists of lists, kept flat.
ghost use Rattle.std.specs.Prelude.{◌≡◌, ◌<◌, ◌≤◌, ◌^◌, [], ◌∷◌, ◌++◌, length, slice_get, slice_range, take, OnOk, OnErr, IsTrue, ◌↔◌};
ghost use Rattle.eq_proof.specs.Rows.{parts_of, IsDivision, start_at};

use eq_base::Memory;
use std::alloc::Global;
use std::marker::Model;

/// Rows of items, kept one after another in one array, with the place where each ends in another.
#[derive(Debug, Drop)]
pub struct Rows<T> {
    items: Vec<T>,
    ends: Vec<usize>,
}

impl<T> Model for Rows<T> {
    ghost use Rattle.std.specs.Prelude.{List};
    ghost use Rattle.std.specs.Coded.{coded_list};

    ghost Value = { List (List T) };

    ghost coded = { coded_list (coded_list T.code) };

    ghost use Rattle.std.specs.Prelude.{length};
    ghost use Rattle.eq_proof.specs.Rows.{parts_of, IsDivision, start_at};

    ghost view = { λ r. parts_of r.items.items 0 r.ends.items };

    ghost invariant = { λ r. IsDivision (length r.items.items) 0 r.ends.items };
}

impl<T> Rows<T> {
    pub fn new(alloc: Global) -> Rows<T>
        ensures { result ≡ [] }
    {
        Rows {
            items: Vec::new(alloc),
            ends: Vec::new(alloc),
        }
    }

    pub fn len(&self) -> usize
        ensures value { result ≡ length self.now }
        ensures few { result < 2 ^ 63 }
    {
        self.ends.len()
    }

    pub fn is_empty(&self) -> bool
        ensures { IsTrue result ↔ (self.now ≡ []) }
    {
        self.len() == 0
    }

    /// The row at a place.
    pub fn at(&self, place: usize) -> &[T]
        requires { place < length self.now }
        ensures { slice_get self.now place ≡ Some result.now }
    {
        row(self.items.as_slice(), self.ends.as_slice(), place)
    }

    /// Keeps the first `rows` rows.
    pub fn truncate(&mut self, rows: usize)
    where
        T: Drop,
        requires { rows ≤ length self.old }
        ensures { self.new ≡ take rows self.old }
    {
        let end = end_of(self.ends.as_slice(), rows);
        self.items.truncate(end);
        self.ends.truncate(rows);
    }
}

impl<T: Copy> Rows<T> {
    /// Copies a row to the end.
    pub fn push(&mut self, row: &[T]) -> Result<(), Memory>
        ensures ok { OnOk result (self.new ≡ self.old ++ row.now ∷ []) }
        ensures err { OnErr result (self.new ≡ self.old) }
    {
        self.make_room(row.len())?;
        self.append(row)
    }

    // Room for a row of this length.
    fn make_room(&mut self, len: usize) -> Result<(), Memory>
        ensures { self.new ≡ self.old }
    {
        widen(&mut self.items, len)?;
        widen(&mut self.ends, 1)
    }

    fn append(&mut self, row: &[T]) -> Result<(), Memory>
        ensures ok { OnOk result (self.new ≡ self.old ++ row.now ∷ []) }
        ensures err { OnErr result (self.new ≡ self.old) }
    {
        let len = self.items.len();
        self.items.extend_from_slice(row)?;
        match self.ends.push(len + row.len()) {
            Ok(()) => Ok(()),
            Err(_) => {
                self.items.truncate(len);
                Err(Memory)
            }
        }
    }
}

// Room for some more items. It grows by at least an eighth: so little of it stays unused, and each item moves a few times.
fn widen<T>(items: &mut Vec<T>, more: usize) -> Result<(), Memory>
    ensures { items.new.items ≡ items.old.items }
{
    let unused = items.capacity().saturating_sub(items.len());
    if more <= unused {
        return Ok(());
    }
    items.reserve_exact(more.max(items.len() / 8))
}

// The row at a place of rows that are kept flat.
fn row<'a, T>(items: &'a [T], ends: &[usize], place: usize) -> &'a [T]
    requires division { IsDivision (length items.now) 0 ends.now }
    requires within { place < length ends.now }
    ensures { slice_get (parts_of items.now 0 ends.now) place ≡ Some result.now }
{
    between(items, end_of(ends, place), ends[place])
}

// Where the first rows end, and so where the row after them begins.
fn end_of(ends: &[usize], rows: usize) -> usize
    requires { rows ≤ length ends.now }
    ensures { result ≡ start_at 0 ends.now rows }
{
    if rows == 0 { 0 } else { ends[rows - 1] }
}

// `&items[start..end]`, with its bounds as conditions.
fn between<T>(items: &[T], start: usize, end: usize) -> &[T]
    requires ordered { start ≤ end }
    requires within { end ≤ length items.now }
    ensures { result.now ≡ slice_range items.now start end }
{
    &items[start..end]
}
