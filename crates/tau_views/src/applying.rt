//! Changes applied, in room that was made before.
ghost use Rattle.std.specs.Prelude.{◌≡◌, ◌<◌, OnOk, vec_len};
ghost use Rattle.std.specs.Vec.{vec_capacity};
ghost use Rattle.tau_views.specs.Changes.{own_after, letters_after, HasRoom, with_item, with_last, without_item, with_letter};

use crate::views::{ViewChange, Views};
use std::alloc::AllocError;
use tau_view::View;

impl<V: View + Drop> Views<V> {
    /// Makes room, so that one change can be applied without memory.
    pub(crate) fn reserve(&mut self) -> Result<(), AllocError>
        ensures own { self.new.own.items ≡ self.old.own.items }
        ensures letters { self.new.letters.items ≡ self.old.letters.items }
        ensures ok { OnOk result (HasRoom self.new) }
    {
        self.own.reserve(1)?;
        self.letters.reserve(1)
    }

    /// Applies a change, in the room that there is, without memory.
    pub(crate) fn change(&mut self, change: ViewChange<V>)
        requires { HasRoom self.old }
        ensures own { self.new.own.items ≡ own_after change self.old.own.items }
        ensures letters { self.new.letters.items ≡ letters_after change self.old.letters.items }
    {
        let ViewChange {
            own,
            newborn,
            letter,
            gone,
        } = change;
        set_view(&mut self.own, own);
        add_view(&mut self.own, newborn);
        take_letter(&mut self.letters, gone);
        add_letter(&mut self.letters, letter);
    }
}

/// Puts a view in the place of that of the transactor with this number.
fn set_view<V: View + Drop>(views: &mut Vec<V>, view: Option<(u32, V)>)
    ensures capacity { vec_capacity views.new ≡ vec_capacity views.old }
    ensures items { views.new.items ≡ with_item view views.old.items }
{
    if let Some((who, view)) = view {
        if (who as usize) < views.len() {
            views[who as usize] = view;
        }
    }
}

/// Adds a view, in the room that there is.
fn add_view<V: View + Drop>(views: &mut Vec<V>, view: Option<V>)
    requires { vec_len views.old < vec_capacity views.old }
    ensures { views.new.items ≡ with_last view views.old.items }
{
    if let Some(view) = view {
        views.push_reserved(view);
    }
}

/// Takes out the view of the message with this number.
fn take_letter<V: View + Drop>(letters: &mut Vec<Option<V>>, message: Option<u32>)
    ensures capacity { vec_capacity letters.new ≡ vec_capacity letters.old }
    ensures items { letters.new.items ≡ without_item message letters.old.items }
{
    if let Some(message) = message {
        if (message as usize) < letters.len() {
            letters[message as usize] = None;
        }
    }
}

/// Adds the view of a message, in the room that there is.
fn add_letter<V: View + Drop>(letters: &mut Vec<Option<V>>, view: Option<V>)
    requires { vec_len letters.old < vec_capacity letters.old }
    ensures { letters.new.items ≡ with_letter view letters.old.items }
{
    if let Some(view) = view {
        letters.push_reserved(Some(view));
    }
}
