//! A table by identity: what became of each box.

ghost use Rattle.std.specs.Prelude.{◌≡◌, ◌<◌, length, All, IfOk, Contains};
ghost use Rattle.cert_log.specs.Lawful.{ids_of};
ghost use Rattle.cert_log.specs.inner.Places.{IsIndexed, IsEntry};

use crate::history::{History, Note};
use glass_base::Memory;
use std::alloc::Global;

/// What became of a box.
#[derive(Clone, Copy)]
pub(crate) enum Fate {
    /// It was handled.
    Noted(Note),
    /// It was left open, and its plans lose at least this, in mm².
    Open(u64),
}

/// Enters the place of each note at its identity.
fn enter_notes(entries: &mut Vec<usize>, history: &History)
    requires { All (λ id. id < length entries.old.items) (ids_of history.now) }
    ensures len { length entries.new.items ≡ length entries.old.items }
    ensures index { IsIndexed (ids_of history.now)
        (length history.now.log.items) entries.new.items }
{
    for (place, note) in history.log.as_slice().iter().enumerate() {
        entries[note.id as usize] = place;
    }
}

/// Enters the place of each left box at its identity, counted on from the notes.
fn enter_left(entries: &mut Vec<usize>, history: &History)
    requires known { All (λ id. id < length entries.old.items) (ids_of history.now) }
    requires notes { IsIndexed (ids_of history.now)
        (length history.now.log.items) entries.old.items }
    ensures len { length entries.new.items ≡ length entries.old.items }
    ensures index { IsIndexed (ids_of history.now) (length (ids_of history.now)) entries.new.items }
{
    let notes = history.log.as_slice().len();
    for (place, kept) in history.left.as_slice().iter().enumerate() {
        entries[kept.bx.id() as usize] = notes + place;
    }
}

/// The place of each identity among the notes and, behind these, the left boxes. All identities are below `room`.
pub(crate) fn places(alloc: Global, history: &History, room: usize) -> Result<Vec<usize>, Memory>
    requires known { All (λ id. id < room) (ids_of history.now) }
    ensures len { IfOk result (λ entries. length entries.items ≡ room) }
    ensures index { IfOk result (λ entries. IsIndexed (ids_of history.now)
        (length (ids_of history.now)) entries.items) }
{
    let mut entries = vec![in alloc; 0usize; room]?;
    enter_notes(&mut entries, history);
    enter_left(&mut entries, history);
    Ok(entries)
}

/// What became of the box of this identity.
pub(crate) fn entry_of(history: &History, places: &[usize], id: u64) -> Fate
    requires index { IsIndexed (ids_of history.now) (length (ids_of history.now)) places.now }
    requires within { id < length places.now }
    requires known { Contains (ids_of history.now) id }
    ensures { IsEntry history.now id result }
{
    let place = places[id as usize];
    match history.log.get(place) {
        Some(note) => Fate::Noted(*note),
        None => Fate::Open(history.left.as_slice()[place - history.log.len()].bound),
    }
}
