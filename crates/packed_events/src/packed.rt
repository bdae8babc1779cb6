//! An event in 16 bytes.
ghost use Rattle.std.specs.Prelude.{◌≡◌, ◌≤◌};
ghost use Rattle.event_records.specs.declared.limits.TheConstants.{MAX_TICKET};
ghost use Rattle.packed_events.specs.Inner.Packed.{joined, tag_of, value_of};

use event_records::{Event, MAX_TICKET, What};
use std::marker::Model;

/// The number of tickets with the same upper part.
const LOWER: u64 = 1 << 32;

const _: () = prove!(MAX_TICKET < 256 * LOWER);

/// The kind of an event without its value.
#[derive(Clone, Copy)]
pub(crate) enum Tag {
    CallEnq,
    RetEnq,
    RetNot,
    CallDeq,
    RetDeq,
    RetEmpty,
}

/// An event in 16 bytes, half of what [`Event`] takes; seen as the event.
#[derive(Clone, Copy)]
pub struct PackedEvent {
    // The value, or 0 if there is none.
    value: u64,
    ticket: u32,
    upper_ticket: u8,
    thread: u8,
    tag: Tag,
}

impl Model for PackedEvent {
    ghost use Rattle.std.specs.Prelude.{◌/◌, ◌%◌};
    ghost use Rattle.event_records.specs.declared.event.Event.{Event};
    ghost use Rattle.packed_events.specs.declared.packed.TheConstants.{LOWER};
    ghost use Rattle.packed_events.specs.Inner.Packed.{IsPacked, back_lower, back_tag, back_upper, back_value};
    ghost use Rattle.packed_events.specs.Inner.Packed.{joined, tag_of, value_of, what_by};

    ghost Value = { Event };

    ghost view = { λ a. record {
      ticket = joined a.upper_ticket a.ticket;
      thread = a.thread;
      what = what_by a.tag a.value;
    } };

    ghost invariant = { λ a. IsPacked a.tag a.value a.ticket };

    ghost inverse = { λ e. record {
      value = value_of e.what;
      ticket = e.ticket % LOWER;
      upper_ticket = e.ticket / LOWER;
      thread = e.thread;
      tag = tag_of e.what;
    } };

    ghost inverse_ok = { λ a h t. record {
      value = back_value a.tag a.value h.no_value t;
      ticket = back_lower a.upper_ticket a.ticket h.ticket t;
      upper_ticket = back_upper a.upper_ticket a.ticket h.ticket t;
      thread = a.thread;
      tag = back_tag a.tag a.value t;
    } };
}

impl PackedEvent {
    /// Packs an event.
    #[inline(always)]
    pub fn new(event: Event) -> PackedEvent
        requires { event.ticket ≤ MAX_TICKET }
        ensures { result ≡ event }
    {
        PackedEvent {
            value: value_of(event.what),
            ticket: (event.ticket % LOWER) as u32,
            upper_ticket: (event.ticket / LOWER) as u8,
            thread: event.thread,
            tag: tag_of(event.what),
        }
    }

    /// Unpacks the event.
    #[inline(always)]
    pub fn unpack(self) -> Event
        ensures { result ≡ self }
    {
        Event {
            ticket: u64::from(self.upper_ticket) * LOWER + u64::from(self.ticket),
            thread: self.thread,
            what: match self.tag {
                Tag::CallEnq => What::CallEnq(self.value),
                Tag::RetEnq => What::RetEnq,
                Tag::RetNot => What::RetNot,
                Tag::CallDeq => What::CallDeq,
                Tag::RetDeq => What::RetDeq(self.value),
                Tag::RetEmpty => What::RetEmpty,
            },
        }
    }
}

#[inline(always)]
fn tag_of(what: What) -> Tag
    ensures { result ≡ tag_of what }
{
    match what {
        What::CallEnq(_) => Tag::CallEnq,
        What::RetEnq => Tag::RetEnq,
        What::RetNot => Tag::RetNot,
        What::CallDeq => Tag::CallDeq,
        What::RetDeq(_) => Tag::RetDeq,
        What::RetEmpty => Tag::RetEmpty,
    }
}

/// Returns the value of this kind of event, or 0 if it has none.
#[inline(always)]
fn value_of(what: What) -> u64
    ensures { result ≡ value_of what }
{
    match what {
        What::CallEnq(value) | What::RetDeq(value) => value,
        What::RetEnq | What::RetNot | What::CallDeq | What::RetEmpty => 0,
    }
}
