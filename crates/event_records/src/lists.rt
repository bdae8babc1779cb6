ghost use Rattle.std.specs.Prelude.{◌≡◌, map};

use crate::event::Event;
use std::marker::Model;

/// One list of events for each thread, list 0 for thread 0, seen as the list of these lists.
///
/// The events may be any: `merge` of the crate `history_merge` merges any lists.
#[derive(Debug, Drop)]
pub struct Lists {
    lists: Vec<Vec<Event>>,
}

impl Model for Lists {
    ghost use Rattle.std.specs.Prelude.{List, map};
    ghost use Rattle.event_records.specs.declared.event.Event.{Event};

    ghost Value = { List (List Event) };

    ghost view = { λ a. map (λ list. list.items) a.lists.items };
}

impl Lists {
    /// Makes the lists, without taking memory.
    pub fn from_vec(lists: Vec<Vec<Event>>) -> Lists
        ensures { result ≡ map (λ list. list.items) lists.items }
    {
        Lists { lists }
    }

    /// Returns the lists, without taking memory.
    pub fn into_vec(self) -> Vec<Vec<Event>>
        ensures { map (λ list. list.items) result.items ≡ self }
    {
        self.lists
    }

    /// Returns the lists, in the order of their threads.
    pub fn as_slice(&self) -> &[Vec<Event>]
        ensures { map (λ list. list.items) result.now ≡ self.now }
    {
        self.lists.as_slice()
    }
}
