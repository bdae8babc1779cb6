// `tests/answers` compares more pictures in characters, and `tests/pictures/run` compares the ends of SVG
// documents.
ghost use Rattle.std.specs.Prelude.{◌≤◌, IfOk};
ghost use Rattle.drawing.specs.Claim.{count_of_lines};
ghost use Rattle.drawing.specs.declared.columns.TheConstants.{MOST_DRAWN};

use drawing::{MOST_DRAWN, count_of_lines, drawn_operations, scene_of, terminal_picture};
use history_merge::History;
use history_text::{MemorySource, TextReader, read_history, read_verdict};
use std::alloc::Global;
use std::test::Fail;
use svg_picture::{html_picture, svg_picture};
use verdicts::Claimed;

/// The greatest ticket, thread and value, with the only linearization.
const TEXT: &[u8] = b"fifo-history 1\n999999999998 63 call-enq 18446744073709551615\n\
    999999999999 63 ret-enq\nend 2\nYES\n999999999998 999999999999 63 enq 18446744073709551615\n";

/// What stands above a picture of a linearization.
const YES_HEAD: &str = "YES: a FIFO queue can have answered so\n\
The numbers give one order in which the operations can have taken\n\
effect. They rise from top to bottom, and each stands within its bar.\n\
\n\
[    call of an operation\n\
]    its return\n\
1    number 1 in the order, where it takes effect\n";

/// Twelve digits, the order at column 14, a lane at 42, and labels at 50.
const PICTURE: &str = "\n\
\x20                                         thread\n\
\x20     ticket  order                       63\n\
999999999998                              [       enq 18446744073709551615\n\
\x20             1 enq 18446744073709551615  1\n\
999999999999                              ]\n";

/// Reads a history and a claim of few lines from their texts.
fn read(alloc: Global, text: &[u8]) -> Result<(History, Claimed), Fail>
    ensures { IfOk result (λ read. count_of_lines read.1 ≤ MOST_DRAWN) }
{
    let mut reader = TextReader::new(MemorySource::new(text));
    let (_, builder) = read_history(alloc, &mut reader)?;
    let history = builder.finish()?;
    let claimed = read_verdict(alloc, &mut reader)?;
    if count_of_lines(&claimed) > MOST_DRAWN {
        return Err(Fail::from("a long claim"));
    }
    Ok((history, claimed))
}

/// Returns the terminal picture of a history's text and its verdict's. Returns from ticket `added_from` on were
/// added.
fn terminal_of(alloc: Global, text: &[u8], added_from: Option<u64>) -> Result<Vec<u8>, Fail> {
    let (history, claimed) = read(alloc, text)?;
    let drawn = drawn_operations(alloc, &history, &claimed, None)?;
    let scene = scene_of(alloc, &history, &claimed, drawn, added_from)?;
    Ok(terminal_picture(alloc, &scene)?)
}

#[test]
fn draws_the_greatest_numbers_whole(rt: HostRuntime) -> Result<(), Fail> {
    let whole = format!(in rt.alloc(); "{YES_HEAD}{PICTURE}")?;
    assert_eq!(rt;
        terminal_of(rt.alloc(), TEXT, None)?.as_slice(),
        whole.as_bytes()
    );
    Ok(())
}

/// A dequeue that never returned, and took effect. Ticket 3 was added.
const OPEN_DEQUEUE: &[u8] = b"fifo-history 1\n0 0 call-enq 7\n1 1 call-deq\n2 0 ret-enq\n\
    3 1 ret-deq 7\nend 4\nYES\n0 2 0 enq 7\n1 3 1 deq 7\n";

/// Seven characters for `pending`, the order at column 9, lanes at 18 and 22, and labels at 28.
const OPEN_DEQUEUE_PICTURE: &str = "\
|    to the end: a call that never returned; a completion gave its answer\n\
\n\
\x20                 thread\n\
\x20ticket  order    0   1\n\
\x20     0           [         enq 7\n\
\x20        1 enq 7  1\n\
\x20     1           |   [     deq 7 (pending)\n\
\x20        2 deq 7  |   2\n\
\x20     2           ]   |\n\
pending               |\n";

#[test]
fn draws_a_dequeue_that_never_returned(rt: HostRuntime) -> Result<(), Fail> {
    let whole = format!(in rt.alloc(); "{YES_HEAD}{OPEN_DEQUEUE_PICTURE}")?;
    assert_eq!(rt;
        terminal_of(rt.alloc(), OPEN_DEQUEUE, Some(3))?.as_slice(),
        whole.as_bytes()
    );
    Ok(())
}

/// An enqueue that never returned, outside the lines of the claim. Ticket 5 was added.
const OPEN_ENQUEUE: &[u8] = b"fifo-history 1\n0 0 call-deq\n1 0 ret-deq 7\n2 1 call-enq 9\n\
    3 2 call-deq\n4 2 ret-deq 9\n5 1 ret-enq\nend 6\nNO VFresh\n0 1 0 deq 7\n";

/// Seven characters for `pending`, bands at columns 9 and 14, lanes at 19, 23 and 27, and labels at 33.
const OPEN_ENQUEUE_PICTURE: &str = "NO: a value was dequeued that was not there\n\
7 was dequeued (1), but nobody ever enqueued it.\n\
\n\
[    call of an operation\n\
]    its return\n\
1    number 1 of the operations that show it\n\
xxx  the value surely was not in the queue.\n\
:::  within this time it was dequeued nevertheless.\n\
(:)  an operation that overlaps none of those with numbers\n\
|    to the end: a call that never returned; a completion gave its answer\n\
\n\
\x20        7 not in\n\
\x20         |   7 dequeued\n\
\x20         |    |   thread\n\
\x20ticket   |    |   0   1   2\n\
\x20     0  xxx  :::  [1            deq 7\n\
\x20     1  xxx       ]\n\
\x20     2  xxx           (         enq 9 (pending)\n\
\x20     3  xxx           :   (     deq 9\n\
\x20     4  xxx           :   )\n\
pending  xxx           :\n";

#[test]
fn draws_an_enqueue_that_never_returned(rt: HostRuntime) -> Result<(), Fail> {
    assert_eq!(rt;
        terminal_of(rt.alloc(), OPEN_ENQUEUE, Some(5))?.as_slice(),
        OPEN_ENQUEUE_PICTURE.as_bytes()
    );
    Ok(())
}

/// An overtaken value that is left for a dequeue that never returned. Ticket 7 was added.
const OPEN_OVERTAKEN: &[u8] =
    b"fifo-history 1\n0 0 call-enq 7\n1 0 ret-enq\n2 1 call-enq 9\n3 1 ret-enq\n\
    4 2 call-deq\n5 2 ret-deq 9\n6 3 call-deq\n7 3 ret-deq 7\nend 8\n\
    NO VOrd\n0 1 0 enq 7\n2 3 1 enq 9\n4 5 2 deq 9\n6 7 3 deq 7\n";

/// Seven characters for `pending`, bands at columns 9 and 14, lanes from 19 on, each 4 wide, and labels at 37.
const OPEN_OVERTAKEN_PICTURE: &str =
    "NO: values were dequeued against the order of their enqueues\n\
7 was enqueued (1) before 9 (2),\n\
but 9 was dequeued (3), and 7 only by a call that never returned (4).\n\
\n\
[    call of an operation\n\
]    its return\n\
1    number 1 of the operations that show it\n\
###  the value surely was in the queue.\n\
:::  within this time the later value went in and out.\n\
|    to the end: a call that never returned; a completion gave its answer\n\
\n\
\x20        7 surely in\n\
\x20         |   9 in and out\n\
\x20         |    |   thread\n\
\x20ticket   |    |   0   1   2   3\n\
\x20     0            [1                enq 7\n\
\x20     1  ###       ]\n\
\x20     2  ###  :::      [2            enq 9\n\
\x20     3  ###  :::      ]\n\
\x20     4  ###  :::          [3        deq 9\n\
\x20     5  ###               ]\n\
\x20     6                        [4    deq 7 (pending)\n\
pending                        |\n";

#[test]
fn says_that_an_overtaken_value_was_never_returned(rt: HostRuntime) -> Result<(), Fail> {
    assert_eq!(rt;
        terminal_of(rt.alloc(), OPEN_OVERTAKEN, Some(7))?.as_slice(),
        OPEN_OVERTAKEN_PICTURE.as_bytes()
    );
    Ok(())
}

/// A value that nobody enqueued.
const FRESH: &[u8] =
    b"fifo-history 1\n0 0 call-deq\n1 0 ret-deq 7\nend 2\nNO VFresh\n0 1 0 deq 7\n";

/// 588 wide because of the fixed words. Below 252, where rows begin, are three rows and the names.
const FRESH_BEGINS: &str = "<?xml version=\"1.0\" encoding=\"UTF-8\"?>\n\
<svg xmlns=\"http://www.w3.org/2000/svg\" version=\"1.1\" width=\"588\" height=\"338\" \
viewBox=\"0 0 588 338\" role=\"img\">\
<title>NO: a value was dequeued that was not there</title>\n\
<desc>7 was dequeued (1), but nobody ever enqueued it.\n</desc>\n<style>";

/// Returns the SVG document and the page of a history's text and its verdict's. `tests/pictures/run` compares the
/// picture in the page.
fn documents_of(
    alloc: Global,
    text: &[u8],
    added_from: Option<u64>,
) -> Result<(Vec<u8>, Vec<u8>), Fail> {
    let (history, claimed) = read(alloc, text)?;
    let drawn = drawn_operations(alloc, &history, &claimed, Some(0))?;
    let scene = scene_of(alloc, &history, &claimed, drawn, added_from)?;
    let picture = svg_picture(alloc, &scene)?;
    Ok((picture, html_picture(alloc, &history, &scene)?))
}

#[test]
fn draws_a_value_that_was_not_there_in_documents(rt: HostRuntime) -> Result<(), Fail> {
    let (picture, page) = documents_of(rt.alloc(), FRESH, None)?;
    assert!(rt; picture.as_slice().starts_with(FRESH_BEGINS.as_bytes()));
    assert!(rt; page.as_slice().starts_with(b"<!DOCTYPE html>\n"));
    assert!(rt; page.as_slice().ends_with(b"</script>\n</body>\n</html>\n"));
    Ok(())
}

/// Lanes begin at 128 and 204, rows at 212, and end at 352. The bar runs from its call at 255 to that end, where a
/// window cuts off its lower edge.
const OPEN_BAR: &str =
    "<g class=\"yes\"><title>thread 1: deq 7, ticket 1, never returned, number 2</title>\n\
<svg width=\"283\" height=\"352\">\
<rect x=\"207\" y=\"255\" width=\"70\" height=\"117\" rx=\"9\" class=\"deq\"></rect>\n</svg>\n\
<text x=\"213\" y=\"276\" textLength=\"35\" class=\"label\">deq 7</text>\n</g>\n";

/// The bar of the enqueue, which returned: from 215 to the row of its return, the fifth.
const CLOSED_BAR: &str =
    "<g class=\"yes\"><title>thread 0: enq 7, tickets 0 to 2, number 1</title>\n\
<rect x=\"131\" y=\"215\" width=\"70\" height=\"94\" rx=\"0\" class=\"enq\"></rect>\n\
<text x=\"137\" y=\"236\" textLength=\"35\" class=\"label\">enq 7</text>\n</g>\n";

#[test]
fn leaves_out_the_lower_edge_of_a_bar_that_never_returned(rt: HostRuntime) -> Result<(), Fail> {
    let (picture, page) = documents_of(rt.alloc(), OPEN_DEQUEUE, Some(3))?;
    let bars = format!(in rt.alloc(); "{CLOSED_BAR}{OPEN_BAR}")?;
    for text in [picture, page] {
        let text = String::from_utf8(text)?;
        assert!(rt; text.contains(bars.as_str()));
    }
    Ok(())
}

/// The line of the dequeue that never returned ends with a word.
const OPEN_LINES: &str = "\n0 2 0 enq 7\n1 3 1 deq 7 pending\n</script>\n";

#[test]
fn lists_the_operations_in_a_page(rt: HostRuntime) -> Result<(), Fail> {
    let (_picture, page) = documents_of(rt.alloc(), OPEN_DEQUEUE, Some(3))?;
    let page = String::from_utf8(page)?;
    assert!(rt; page.contains(OPEN_LINES));
    Ok(())
}
