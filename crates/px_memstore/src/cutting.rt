// Cutting pieces, and the room for it.
ghost use Rattle.std.specs.Prelude.{◌≡◌, ◌≤◌, ◌<◌, ◌+◌, ◌-◌, ◌∷◌, ◌++◌, [], length, take, drop, get_or, IfSome, OnOk, vec_len, vec_capacity};
ghost use Rattle.std.specs.List.{insert as inserted};
ghost use Rattle.px_cells.specs.Order.{IsAscending};
ghost use Rattle.px_memstore.specs.Pieces.{KeysApart, chained};
ghost use Rattle.px_memstore.specs.inner.Pieces.{ArePieces, IsSame, cut_at, lists};

use crate::pieces::Pieces;
use px_cells::{Cell, place_after, place_of};
use std::alloc::{AllocError, Global};

/// So many cells a piece has room for.
pub(crate) const PIECE: usize = 256;

/// So many cells at most are cut off one that has more.
const PART: usize = 224;

/// The place in a sorted list where a row begins, at or before a place, if it isn't the first row; else the place behind it.
fn row_begin(cells: &[Cell], wanted: usize) -> usize
    requires { IsAscending cells.now }
    ensures within { result ≤ length cells.now }
    ensures apart { KeysApart (take result cells.now) (drop result cells.now) }
{
    if wanted >= cells.len() {
        return cells.len();
    }
    let key = cells[wanted].key();
    let before = place_of(cells, key);
    if before > 0 {
        return before;
    }
    place_after(cells, key)
}

/// Where a list is best cut, into which cells of a key come: in its middle, but near an end where the key belongs there, as keys that rise or fall
/// do. Each of both parts has room then, or none comes to it.
fn best_cut(cells: &[Cell], key: &[u8]) -> usize
    requires { IsAscending cells.now }
{
    let count = cells.len();
    let few = count / 64;
    let place = place_of(cells, key);
    if place < few {
        return few;
    }
    if count - few < place {
        return count - few;
    }
    count / 2
}

/// Moves what is in a list from a place on into an empty one with room for it.
fn move_tail(from: &mut Vec<Cell>, at: usize, to: &mut Vec<Cell>)
    requires within { at ≤ vec_len from.old }
    requires none { to.old.items ≡ [] }
    requires room { vec_len from.old - at ≤ vec_capacity to.old }
    ensures kept { from.new.items ≡ take at from.old.items }
    ensures moved { to.new.items ≡ drop at from.old.items }
    ensures capacity { vec_capacity from.new ≡ vec_capacity from.old }
{
    while at < from.len() {
        let Some(cell) = from.pop() else {
            return;
        };
        let _ = to.push(cell);
    }
    to.as_mut_slice().reverse();
}

/// An empty list with room for so many cells, if the last of these is one.
fn take_spare(spares: &mut Vec<Vec<Cell>>, count: usize) -> Option<Vec<Cell>>
    ensures none { IfSome result (λ spare. spare.items ≡ []) }
    ensures room { IfSome result (λ spare. count ≤ vec_capacity spare) }
{
    let spare = spares.pop()?;
    if spare.is_empty() && count <= spare.capacity() {
        return Some(spare);
    }
    drop(spare);
    None
}

impl Pieces {
    /// Cuts the first piece at a place; what is behind it moves into an empty list.
    fn split_first(&mut self, place: usize, spare: Vec<Cell>)
        requires within { place ≤ vec_len self.old.first }
        requires none { spare.items ≡ [] }
        requires room { vec_len self.old.first - place ≤ vec_capacity spare }
        requires directory { vec_len self.old.others < vec_capacity self.old.others }
        ensures cut { lists self.new ≡ cut_at (lists self.old) 0 place }
        ensures count { self.new.count ≡ self.old.count }
        ensures capacity { vec_capacity self.new.first ≡ vec_capacity self.old.first }
    {
        let mut upper = spare;
        move_tail(&mut self.first, place, &mut upper);
        insert(&mut self.others, 0, upper);
    }

    /// Cuts another one.
    fn split_other(&mut self, at: usize, place: usize, spare: Vec<Cell>)
        requires at { at < length self.old.others.items }
        requires within { place ≤ length (get_or (lists self.old) (at + 1) []) }
        requires none { spare.items ≡ [] }
        requires room { length (get_or (lists self.old) (at + 1) []) - place ≤ vec_capacity spare }
        requires directory { vec_len self.old.others < vec_capacity self.old.others }
        ensures cut { lists self.new ≡ cut_at (lists self.old) (at + 1) place }
        ensures count { self.new.count ≡ self.old.count }
        ensures capacity { vec_capacity self.new.first ≡ vec_capacity self.old.first }
    {
        let mut upper = spare;
        move_tail(&mut self.others[at], place, &mut upper);
        insert(&mut self.others, at + 1, upper);
    }

    /// Cuts a piece at a place.
    fn split(&mut self, at: usize, place: usize, spare: Vec<Cell>)
        requires at { at ≤ length self.old.others.items }
        requires within { place ≤ length (get_or (lists self.old) at []) }
        requires none { spare.items ≡ [] }
        requires room { length (get_or (lists self.old) at []) - place ≤ vec_capacity spare }
        requires directory { vec_len self.old.others < vec_capacity self.old.others }
        ensures cut { lists self.new ≡ cut_at (lists self.old) at place }
        ensures count { self.new.count ≡ self.old.count }
        ensures capacity { vec_capacity self.new.first ≡ vec_capacity self.old.first }
    {
        if at == 0 {
            self.split_first(place, spare);
        } else {
            self.split_other(at - 1, place, spare);
        }
    }

    /// Cuts a piece where a row begins, near a place, if there is room for another one and it isn't all one row.
    fn cut(&mut self, spares: &mut Vec<Vec<Cell>>, at: usize, wanted: usize)
        requires at { at ≤ length self.old.others.items }
        requires pieces { ArePieces (lists self.old) }
        ensures same { IsSame self.old self.new }
    {
        let count = self.piece(at).len();
        let place = row_begin(self.piece(at), wanted);
        if place == 0 || place == count || self.others.len() == self.others.capacity() {
            return;
        }
        let Some(spare) = take_spare(spares, count - place) else {
            return;
        };
        self.split(at, place, spare);
    }

    /// Cuts a piece into which cells of a key come.
    #[tactic(auto, using(crate::proofs::Puts::same_itself, crate::proofs::Puts::same_trans))]
    pub(crate) fn cut_for(&mut self, spares: &mut Vec<Vec<Cell>>, at: usize, key: &[u8])
        requires at { at ≤ length self.old.others.items }
        requires pieces { ArePieces (lists self.old) }
        ensures same { IsSame self.old self.new }
    {
        let wanted = best_cut(self.piece(at), key);
        self.cut(spares, at, wanted);
    }

    /// Cuts the last rows off the first piece; false where it is all one row.
    fn cut_last(&mut self, alloc: Global) -> Result<bool, AllocError>
        requires pieces { ArePieces (lists self.old) }
        ensures same { IsSame self.old self.new }
    {
        let count = self.first.len();
        let place = row_begin(&self.first, count.saturating_sub(PART));
        if place == 0 || place == count {
            return Ok(false);
        }
        let spare = Vec::with_capacity(alloc, PIECE.max((count - place).saturating_mul(2)))?;
        self.others.reserve(1)?;
        self.split_first(place, spare);
        Ok(true)
    }

    /// Cuts the first piece into as many as it takes.
    #[tactic(auto, using(crate::proofs::Puts::same_itself, crate::proofs::Puts::same_trans))]
    fn spread(&mut self, alloc: Global) -> Result<(), AllocError>
        requires pieces { ArePieces (lists self.old) }
        ensures same { IsSame self.old self.new }
    {
        for _cut in 0..self.first.len() {
            if self.first.len() <= PIECE || !self.cut_last(alloc)? {
                return Ok(());
            }
        }
        Ok(())
    }

    /// Takes more room for a piece whose one row fills most of it.
    fn loosen_at(&mut self, at: usize) -> Result<(), AllocError>
        requires at { at < length self.old.others.items }
        requires pieces { ArePieces (lists self.old) }
        ensures same { IsSame self.old self.new }
        ensures others { length self.new.others.items ≡ length self.old.others.items }
    {
        let piece = &mut self.others[at];
        if !is_tight(piece) {
            return Ok(());
        }
        let count = piece.len();
        piece.reserve(count)
    }

    /// Takes more room for each such piece.
    #[tactic(auto, using(crate::proofs::Puts::same_itself, crate::proofs::Puts::same_trans))]
    fn loosen(&mut self) -> Result<(), AllocError>
        requires pieces { ArePieces (lists self.old) }
        ensures same { IsSame self.old self.new }
    {
        for at in 0..self.others.len() {
            self.loosen_at(at)?;
        }
        self.is_tight = false;
        Ok(())
    }

    /// Takes room in the first piece for so many cells more than all are.
    #[tactic(auto, using(crate::proofs::Puts::same_itself, crate::proofs::Puts::same_trans))]
    fn take_room(&mut self, n: usize) -> Result<(), AllocError>
        requires pieces { ArePieces (lists self.old) }
        requires count { self.old.count ≡ length (chained (lists self.old)) }
        ensures same { IsSame self.old self.new }
        ensures room { OnOk result (self.new.count + n ≤ vec_capacity self.new.first) }
    {
        let Some(all) = (self.count - self.first.len()).checked_add(n) else {
            return Err(AllocError);
        };
        self.first.reserve(all)
    }

    /// Makes ready for so many cells: takes room for the pieces that they may need, and for rows that grow.
    #[tactic(auto, using(crate::proofs::Puts::same_itself, crate::proofs::Puts::same_trans))]
    fn make_ready(
        &mut self,
        alloc: Global,
        spares: &mut Vec<Vec<Cell>>,
        n: usize,
    ) -> Result<(), AllocError>
        requires pieces { ArePieces (lists self.old) }
        ensures same { IsSame self.old self.new }
    {
        stock(alloc, spares, self.wanted(n))?;
        self.others.reserve(spares.len())?;
        if self.is_tight {
            return self.loosen();
        }
        Ok(())
    }

    /// Takes room for so many cells more.
    #[tactic(auto, using(crate::proofs::Puts::same_itself, crate::proofs::Puts::same_trans))]
    pub(crate) fn reserve(
        &mut self,
        alloc: Global,
        spares: &mut Vec<Vec<Cell>>,
        n: usize,
    ) -> Result<(), AllocError>
        requires pieces { ArePieces (lists self.old) }
        requires count { self.old.count ≡ length (chained (lists self.old)) }
        ensures same { IsSame self.old self.new }
        ensures room { OnOk result (self.new.count + n ≤ vec_capacity self.new.first) }
    {
        self.take_room(n)?;
        self.make_ready(alloc, spares, n)?;
        self.spread(alloc)
    }

    /// How many empty lists are enough for the pieces that so many cells more may need.
    fn wanted(&self, n: usize) -> usize {
        if self.first.len().saturating_add(n) <= PIECE && self.others.is_empty() {
            return 0;
        }
        let cuts = self.others.len().saturating_add(n / 64);
        (n / 8).min(cuts).saturating_add(2)
    }
}

/// Whether a piece has little room left, and its cells are of one row.
pub(crate) fn is_tight(piece: &Vec<Cell>) -> bool {
    if piece.capacity() - piece.len() > piece.capacity() / 4 {
        return false;
    }
    match (piece.first(), piece.last()) {
        (Some(first), Some(last)) => first.key() == last.key(),
        _ => false,
    }
}

/// Takes memory for so many empty lists.
fn stock(alloc: Global, spares: &mut Vec<Vec<Cell>>, count: usize) -> Result<(), AllocError> {
    for _spare in spares.len()..count {
        let spare = Vec::with_capacity(alloc, PIECE)?;
        spares.push(spare)?;
    }
    Ok(())
}

/// Puts a list among others, where there is room for one more.
fn insert(to: &mut Vec<Vec<Cell>>, at: usize, piece: Vec<Cell>)
    requires at { at ≤ vec_len to.old }
    requires room { vec_len to.old < vec_capacity to.old }
    ensures { to.new.items ≡ inserted to.old.items at piece }
{
    let _ = to.insert(at, piece);
}
