//! Markup: elements with attributes, each closed by its end tag.
ghost use Rattle.std.specs.Prelude.{◌≡◌, ◌++◌, OnOk, map, decimal};
ghost use Rattle.std.specs.List.{flat_map};
ghost use Rattle.svg_picture.specs.Markup.{plain_byte, plain_words, attribute_text, named, start_tag, end_tag};

use drawing::Added;
use itoa::Buffer;

/// An attribute of an element: its name and its value.
#[derive(Clone, Copy)]
pub(crate) enum Attribute<'a> {
    /// An attribute whose value is this number.
    Number(&'a [u8], u128),
    /// An attribute whose value is these words.
    Words(&'a [u8], &'a [u8]),
}

fn plain_byte(b: u8) -> u8
    ensures { result ≡ plain_byte b }
{
    match b {
        b'<' | b'>' | b'&' | b'"' => b'?',
        _ => b,
    }
}

/// Appends words, with a question mark in place of each byte that means markup.
#[tactic(auto, using(crate::proofs::Each::steps))]
pub(crate) fn push_plain(text: &mut Vec<u8>, words: &[u8]) -> Added
    ensures { OnOk result (text.new.items ≡ text.old.items ++ plain_words words.now) }
{
    for b in words {
        text.push(plain_byte(*b))?;
    }
    Ok(())
}

/// Appends the digits of a number.
pub(crate) fn push_number(text: &mut Vec<u8>, number: u128) -> Added
    ensures { OnOk result (text.new.items ≡ text.old.items ++ decimal number) }
{
    let mut buffer = Buffer::new();
    text.extend_from_slice(buffer.format(number).as_bytes())
}

fn push_named(text: &mut Vec<u8>, name: &[u8], value: &[u8]) -> Added
    ensures { OnOk result (text.new.items ≡ text.old.items
        ++ attribute_text (record { name = name.now; value = plain_words value.now })) }
{
    text.extend_from_slice(b" ")?;
    text.extend_from_slice(name)?;
    text.extend_from_slice(b"=\"")?;
    push_plain(text, value)?;
    text.extend_from_slice(b"\"")
}

fn push_attribute(text: &mut Vec<u8>, attribute: Attribute<'_>) -> Added
    ensures { OnOk result (text.new.items ≡ text.old.items ++ attribute_text (named attribute.entry)) }
{
    match attribute {
        Attribute::Number(name, number) => {
            let mut buffer = Buffer::new();
            push_named(text, name, buffer.format(number).as_bytes())
        }
        Attribute::Words(name, words) => push_named(text, name, words),
    }
}

#[tactic(auto, using(crate::proofs::Each::steps))]
fn push_attributes(text: &mut Vec<u8>, attributes: &[Attribute<'_>]) -> Added
    ensures { OnOk result (text.new.items ≡ text.old.items ++ flat_map attribute_text (map named attributes.now)) }
{
    for attribute in attributes {
        push_attribute(text, *attribute)?;
    }
    Ok(())
}

/// Appends the tag that begins an element.
pub(crate) fn push_start(text: &mut Vec<u8>, name: &[u8], attributes: &[Attribute<'_>]) -> Added
    ensures { OnOk result (text.new.items ≡ text.old.items ++ start_tag name.now (map named attributes.now)) }
{
    text.extend_from_slice(b"<")?;
    text.extend_from_slice(name)?;
    push_attributes(text, attributes)?;
    text.extend_from_slice(b">")
}

/// Appends the tag that closes an element.
pub(crate) fn push_end(text: &mut Vec<u8>, name: &[u8]) -> Added
    ensures { OnOk result (text.new.items ≡ text.old.items ++ end_tag name.now) }
{
    text.extend_from_slice(b"</")?;
    text.extend_from_slice(name)?;
    text.extend_from_slice(b">\n")
}

/// Adds an element with words in it.
pub(crate) fn push_element(
    text: &mut Vec<u8>,
    name: &[u8],
    attributes: &[Attribute<'_>],
    words: &[u8],
) -> Added
    ensures { OnOk result (text.new.items ≡ text.old.items
        ++ (start_tag name.now (map named attributes.now) ++ (plain_words words.now ++ end_tag name.now))) }
{
    push_start(text, name, attributes)?;
    push_plain(text, words)?;
    push_end(text, name)
}
