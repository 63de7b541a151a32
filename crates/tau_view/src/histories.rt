ghost use Rattle.std.specs.Prelude.{◌≡◌, [], ◌++◌, IfOk, IfErr, OnOk, OnErr};
ghost use Rattle.std.specs.Option.{option_map};
ghost use Rattle.std.specs.Bool.{OnTrue};
ghost use Rattle.tau_view.specs.Held.{AllComparable, fate_in};
ghost use Rattle.tau_view.specs.Rules.{noted_in, merged_in};
ghost use Rattle.tau_history.specs.Fates.{fate};
ghost use Rattle.tau_history.specs.Order.{AreComparable, later_of};
ghost use Rattle.tau_view.specs.Entries.{entries_of};
ghost use Rattle.tau_view.specs.Inner.Places.{IsAt, IsGap};
ghost use Rattle.tau_view.specs.Stored.{AscendsFrom, history_in};

use crate::entry::Entry;
use std::alloc::{AllocError, Global};
use std::cmp::Ordering;
use std::marker::Model;
use tau_history::{Fate, History};
use tau_points::Point;

/// Whether the transactor's entry stands at a place.
fn stands_at(entries: &[Entry], place: usize, who: u32) -> bool
    ensures { OnTrue result (IsAt who (entries_of entries.now) place) }
{
    place < entries.len() && entries[place].who == who
}

/// The place of a transactor's entry, or as an `Err` the place at which it would stand. Where there is an entry of each
/// lower transactor, as of the starts of a run that all have heard of one another, it is found at once.
fn find(entries: &[Entry], who: u32) -> Result<usize, usize>
    requires { AscendsFrom 0 (entries_of entries.now) }
    ensures found { IfOk result (IsAt who (entries_of entries.now)) }
    ensures gap { IfErr result (IsGap who (entries_of entries.now)) }
{
    if stands_at(entries, who as usize, who) {
        return Ok(who as usize);
    }
    let mut low = 0;
    let mut high = entries.len();
    'search: while low < high {
        let middle = low + (high - low) / 2;
        match entries[middle].who.cmp(&who) {
            Ordering::Less => low = middle + 1,
            Ordering::Equal => return Ok(middle),
            Ordering::Greater => high = middle,
        }
    }
    Err(low)
}

/// Puts the history in the place of the transactor's one, or between those of lower and of higher transactors.
fn put(entries: &mut Vec<Entry>, who: u32, history: History) -> Result<(), AllocError>
    requires { AscendsFrom 0 (entries_of entries.old.items) }
    ensures ascends { AscendsFrom 0 (entries_of entries.new.items) }
    ensures ok { OnOk result (history_in (entries_of entries.new.items)
        ≡ noted_in who history.history (history_in (entries_of entries.old.items))) }
    ensures err { OnErr result (entries.new.items ≡ entries.old.items) }
{
    match find(entries, who) {
        Ok(place) => {
            entries[place] = Entry { who, history };
            Ok(())
        }
        Err(place) => {
            entries.insert(place, Entry { who, history })?;
            Ok(())
        }
    }
}

/// Adds these entries at the end.
fn append(all: &mut Vec<Entry>, entries: &[Entry]) -> Result<(), AllocError>
    ensures { OnOk result (entries_of all.new.items ≡ entries_of all.old.items ++ entries_of entries.now) }
{
    for entry in entries {
        all.push(entry.copy()?)?;
    }
    Ok(())
}

/// The same histories, each shared with the original.
fn copies(alloc: Global, entries: &[Entry]) -> Result<Vec<Entry>, AllocError>
    ensures { IfOk result (λ all. entries_of all.items ≡ entries_of entries.now) }
{
    let mut all = Vec::with_capacity(alloc, entries.len())?;
    append(&mut all, entries)?;
    Ok(all)
}

/// The entry of the later history of two.
fn later_entry(ours: &Entry, theirs: &Entry) -> Result<Entry, AllocError>
    requires { AreComparable ours.now.history.history theirs.now.history.history }
    ensures who { IfOk result (λ e. e.who ≡ ours.now.who) }
    ensures history { IfOk result (λ e. e.history.history ≡ later_of ours.now.history.history theirs.now.history.history) }
{
    if ours.history.is_before(&theirs.history) {
        let history = theirs.history.copy()?;
        return Ok(Entry {
            who: ours.who,
            history,
        });
    }
    ours.copy()
}

/// Whether no history of theirs is of another transactor than ours or later than ours.
fn covers(ours: &[Entry], theirs: &[Entry]) -> bool
    requires ours { AscendsFrom 0 (entries_of ours.now) }
    requires theirs { AscendsFrom 0 (entries_of theirs.now) }
    requires comparable { AllComparable (history_in (entries_of ours.now)) (history_in (entries_of theirs.now)) }
    ensures { OnTrue result (merged_in (history_in (entries_of ours.now)) (history_in (entries_of theirs.now))
        ≡ history_in (entries_of ours.now)) }
{
    let (mut i, mut j) = (0, 0);
    'compare: while i < ours.len() && j < theirs.len() {
        match ours[i].who.cmp(&theirs[j].who) {
            Ordering::Less => i += 1,
            Ordering::Equal => {
                if ours[i].history.is_before(&theirs[j].history) {
                    return false;
                }
                i += 1;
                j += 1;
            }
            Ordering::Greater => return false,
        }
    }
    j == theirs.len()
}

/// The later history of each transactor.
fn merged(alloc: Global, ours: &[Entry], theirs: &[Entry]) -> Result<Vec<Entry>, AllocError>
    requires ours { AscendsFrom 0 (entries_of ours.now) }
    requires theirs { AscendsFrom 0 (entries_of theirs.now) }
    requires comparable { AllComparable (history_in (entries_of ours.now)) (history_in (entries_of theirs.now)) }
    ensures ascends { IfOk result (λ all. AscendsFrom 0 (entries_of all.items)) }
    ensures histories { IfOk result (λ all. history_in (entries_of all.items)
        ≡ merged_in (history_in (entries_of ours.now)) (history_in (entries_of theirs.now))) }
{
    let mut all = Vec::with_capacity(alloc, ours.len())?;
    let (mut i, mut j) = (0, 0);
    'merge: while i < ours.len() && j < theirs.len() {
        match ours[i].who.cmp(&theirs[j].who) {
            Ordering::Less => {
                all.push(ours[i].copy()?)?;
                i += 1;
            }
            Ordering::Equal => {
                all.push(later_entry(&ours[i], &theirs[j])?)?;
                i += 1;
                j += 1;
            }
            Ordering::Greater => {
                all.push(theirs[j].copy()?)?;
                j += 1;
            }
        }
    }
    append(&mut all, &ours[i..])?;
    append(&mut all, &theirs[j..])?;
    Ok(all)
}

/// The fate of a point by the history of its transactor. That of the own point is told without a look at the numbers.
fn fate_by(history: &History, point: &Point) -> Fate
    ensures { result ≡ fate history.now.history point.now.interval point.now.incarnation }
{
    if point.interval != history.interval() || point.incarnation != history.incarnation() {
        return history.fate(point.interval, point.incarnation);
    }
    if history.is_stable() {
        Fate::Stable
    } else {
        Fate::Open
    }
}

/// Histories by ascending transactor, at most one of each.
#[derive(Drop)]
pub(crate) struct Histories {
    entries: Vec<Entry>,
}

impl Model for Histories {
    ghost use Rattle.std.specs.Prelude.{List, ℕ, map};
    ghost use Rattle.tau_history.specs.Timeline.{Timeline};

    ghost Value = { List (ℕ × Timeline) };

    ghost use Rattle.tau_view.specs.Entries.{entries_of};
    ghost use Rattle.tau_view.specs.Stored.{AscendsFrom};

    ghost view = { λ h. entries_of h.entries.items };

    ghost invariant = { λ h. AscendsFrom 0 (entries_of h.entries.items) };
}

impl Histories {
    /// No history.
    pub(crate) fn new(alloc: Global) -> Histories
        ensures { result ≡ [] }
    {
        Histories {
            entries: Vec::new(alloc),
        }
    }

    /// How many transactors have a history.
    pub(crate) fn len(&self) -> usize {
        self.entries.len()
    }

    /// The history of a transactor.
    pub(crate) fn get(&self, who: u32) -> Option<&History>
        ensures { option_map (λ h. h.now.history) result ≡ history_in self.now who }
    {
        match find(&self.entries, who) {
            Ok(place) => Some(&self.entries[place].history),
            Err(_) => None,
        }
    }

    /// The fate of a point; Ahead where its transactor has no history.
    pub(crate) fn fate_of(&self, point: &Point) -> Fate
        ensures { result ≡ fate_in (history_in self.now) point.now }
    {
        match self.get(point.who) {
            Some(history) => fate_by(history, point),
            None => Fate::Ahead,
        }
    }

    /// Makes this history that of the transactor.
    pub(crate) fn note(&mut self, who: u32, history: &History) -> Result<(), AllocError>
        ensures ok { OnOk result (history_in self.new ≡ noted_in who history.now.history (history_in self.old)) }
        ensures err { OnErr result (self.new ≡ self.old) }
    {
        let history = history.copy()?;
        put(&mut self.entries, who, history)
    }

    /// The same histories.
    pub(crate) fn copy(&self) -> Result<Histories, AllocError>
        ensures { IfOk result (λ h. h ≡ self.now) }
    {
        let entries = copies(*self.entries.allocator(), &self.entries)?;
        Ok(Histories { entries })
    }

    /// Whether a merge with the other histories gives these again.
    pub(crate) fn covers(&self, other: &Histories) -> bool
        requires { AllComparable (history_in self.now) (history_in other.now) }
        ensures { OnTrue result (merged_in (history_in self.now) (history_in other.now) ≡ history_in self.now) }
    {
        covers(&self.entries, &other.entries)
    }

    /// The later history of each transactor, of those here and there. The two are comparable.
    pub(crate) fn merged(&self, other: &Histories) -> Result<Histories, AllocError>
        requires { AllComparable (history_in self.now) (history_in other.now) }
        ensures { IfOk result (λ h. history_in h ≡ merged_in (history_in self.now) (history_in other.now)) }
    {
        let entries = merged(*self.entries.allocator(), &self.entries, &other.entries)?;
        Ok(Histories { entries })
    }
}
