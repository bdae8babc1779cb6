//! Names of values.
ghost use Rattle.std.specs.Prelude.{◌≡◌, ◌++◌, ◌≤◌, IfOk, OnOk, length};
ghost use Rattle.drawing.specs.Layout.{initial_label};
ghost use Rattle.drawing.specs.Names.{name_of, name_text, value_text};

use crate::columns::digits;
use crate::line::{Added, push_number};
use event_records::{MAX_THREADS, NAMES_OF_A_THREAD};
use std::alloc::{AllocError, Global};

/// The name that recorders give a value.
#[derive(Clone, Copy)]
pub(crate) enum Name {
    /// A value of a thread from 1 on: the thread, and the number of the value.
    OfThread(u64, u64),
    /// An initial value: its number.
    OfInitial(u64),
    /// Any other value: the value itself.
    Plain(u64),
}

fn name_of(value: u64) -> Name
    ensures { result ≡ name_of value }
{
    let owner = value / NAMES_OF_A_THREAD;
    let number = value % NAMES_OF_A_THREAD;
    if owner == 0 {
        Name::Plain(value)
    } else if owner < MAX_THREADS as u64 {
        Name::OfThread(owner, number)
    } else if owner == MAX_THREADS as u64 {
        Name::OfInitial(number)
    } else {
        Name::Plain(value)
    }
}

fn push_name(text: &mut Vec<u8>, name: Name) -> Added
    ensures { OnOk result (text.new.items ≡ text.old.items ++ name_text name) }
{
    match name {
        Name::OfThread(thread, number) => {
            push_number(text, thread)?;
            text.extend_from_slice(b":")?;
            push_number(text, number)
        }
        Name::OfInitial(number) => {
            text.extend_from_slice(b"init:")?;
            push_number(text, number)
        }
        Name::Plain(value) => push_number(text, value),
    }
}

/// Appends the name of a value.
pub(crate) fn push_value(text: &mut Vec<u8>, value: u64) -> Added
    ensures { OnOk result (text.new.items ≡ text.old.items ++ value_text value) }
{
    push_name(text, name_of(value))
}

/// Returns the label of an initial value, by its name.
pub fn initial_label(alloc: Global, value: u64) -> Result<Vec<u8>, AllocError>
    ensures { IfOk result (λ label. label.items ≡ initial_label value) }
{
    let mut label = Vec::new(alloc);
    let name = name_of(value);
    match name {
        Name::OfInitial(_) => {}
        _ => label.extend_from_slice(b"init ")?,
    }
    push_name(&mut label, name)?;
    Ok(label)
}

/// Returns the number of characters of a value's name.
pub(crate) fn value_len(value: u64) -> u8
    ensures value { result ≡ length (value_text value) }
    ensures few { result ≤ 41 }
{
    match name_of(value) {
        Name::OfThread(thread, number) => digits(thread) + 1 + digits(number),
        Name::OfInitial(number) => 5 + digits(number),
        Name::Plain(value) => digits(value),
    }
}

/// Returns the number of characters of an initial value's label.
pub(crate) fn initial_label_len(value: u64) -> u8
    ensures { result ≡ length (initial_label value) }
{
    match name_of(value) {
        Name::OfInitial(_) => value_len(value),
        _ => 5 + value_len(value),
    }
}
