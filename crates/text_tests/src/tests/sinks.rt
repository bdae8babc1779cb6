//! The number of calls of readers and writers, and the results made of their answers.
ghost use Rattle.std.specs.Prelude.{◌≤◌, IfOk};

use history_text::{Buffered, ReadFailed, TextSink, TextSource, Watched, WriteFault, write_piece};
use std::io;
use std::io::{ErrorKind, Read, Write};

/// A reader and writer of std that counts its calls and answers them from a table. After the table's end it takes
/// all.
#[derive(Drop)]
struct Scripted<'a> {
    answers: &'a [Result<usize, ErrorKind>],
    calls: usize,
    flushes: usize,
}

impl<'a> Scripted<'a> {
    fn new(answers: &'a [Result<usize, ErrorKind>]) -> Self {
        Scripted {
            answers,
            calls: 0,
            flushes: 0,
        }
    }

    /// Returns the answer to the next call, which is at most `most`.
    fn answer(&mut self, most: usize) -> io::Result<usize>
        ensures { IfOk result (λ n. n ≤ most) }
    {
        let answer = self.answers.get(self.calls).copied();
        self.calls = self.calls.wrapping_add(1);
        match answer {
            None => Ok(most),
            Some(Ok(count)) => Ok(count.min(most)),
            Some(Err(kind)) => Err(io::Error::from(kind)),
        }
    }
}

impl Write for Scripted<'_> {
    fn write(&mut self, piece: &[u8]) -> io::Result<usize> {
        self.answer(piece.len())
    }

    fn flush(&mut self) -> io::Result<()> {
        self.flushes = self.flushes.wrapping_add(1);
        self.answer(0).map(|_| ())
    }
}

impl Read for Scripted<'_> {
    fn read(&mut self, piece: &mut [u8]) -> io::Result<usize> {
        self.answer(piece.len())
    }
}

const ANSWERS: [Result<usize, ErrorKind>; 4] = [
    Ok(2),
    Ok(0),
    Err(ErrorKind::Interrupted),
    Err(ErrorKind::Other),
];

/// Returns the result of a write of three bytes whose calls are answered like this, and the numbers of calls and
/// flushes of its writer.
fn written(answers: &[Result<usize, ErrorKind>]) -> (Result<usize, WriteFault>, usize, usize) {
    let mut scripted = Scripted::new(answers);
    let written = TextSink::write(&mut Watched::new(&mut scripted), b"abc");
    (written, scripted.calls, scripted.flushes)
}

/// Returns the result of a flush whose calls are answered like this, and the numbers of calls and flushes of its
/// writer.
fn flushed(answers: &[Result<usize, ErrorKind>]) -> (Result<(), WriteFault>, usize, usize) {
    let mut scripted = Scripted::new(answers);
    let flushed = TextSink::flush(&mut Watched::new(&mut scripted));
    (flushed, scripted.calls, scripted.flushes)
}

/// Returns the result of a read of three bytes whose calls are answered like this, and the number of calls of its
/// reader.
fn read(answers: &[Result<usize, ErrorKind>]) -> (Result<usize, ReadFailed>, usize) {
    let mut scripted = Scripted::new(answers);
    let read = TextSource::read(&mut Watched::new(&mut scripted), &mut [0; 3]);
    (read, scripted.calls)
}

#[test]
fn each_call_is_one_call(rt: HostRuntime) {
    for answer in ANSWERS {
        let done = answer.map_err(|_| WriteFault::Write);
        assert!(rt; written(&[answer]) == (done, 1, 0), "{answer:?}");
        assert!(rt;
            flushed(&[answer]) == (done.map(|_| ()), 1, 1),
            "{answer:?}"
        );
        assert!(rt;
            read(&[answer]) == (answer.map_err(|_| ReadFailed), 1),
            "{answer:?}"
        );
    }
}

#[test]
fn a_refused_piece_is_not_written_on(rt: HostRuntime) {
    for (answers, calls) in [
        ([Ok(1), Err(ErrorKind::Interrupted)], 2),
        ([Ok(0), Ok(3)], 1),
        ([Err(ErrorKind::Other), Ok(3)], 1),
    ] {
        let mut scripted = Scripted::new(&answers);
        let written = write_piece(b"abc", &mut Watched::new(&mut scripted));
        let left = (written, scripted.calls, scripted.flushes);
        assert!(rt; left == (Err(WriteFault::Write), calls, 0), "{answers:?}");
    }
}

/// Writes the pieces to a buffer, and flushes it if `is_flushed`. Returns the result, and the numbers of calls and
/// flushes of a writer whose calls are answered like this.
fn buffered(
    answers: &[Result<usize, ErrorKind>],
    pieces: &[&[u8]],
    is_flushed: bool,
) -> Result<(Result<(), WriteFault>, usize, usize), WriteFault> {
    let mut scripted = Scripted::new(answers);
    let mut sink = Buffered::new(Watched::new(&mut scripted));
    for piece in pieces {
        write_piece(piece, &mut sink)?;
    }
    let ended = if is_flushed { sink.flush() } else { Ok(()) };
    drop(sink);
    Ok((ended, scripted.calls, scripted.flushes))
}

/// More bytes than fit twice into a buffer of 4,096, and fewer than fit three times.
const MANY: [u8; 10_000] = [b'0'; 10_000];

#[test]
fn bytes_are_kept_back_until_the_flush(rt: HostRuntime) {
    let refusing = [Ok(2), Err(ErrorKind::Other)];
    let refused = Err(WriteFault::Write);
    assert!(rt; buffered(&[], &[b"abc", b"defg"], false) == Ok((Ok(()), 0, 0)));
    assert!(rt; buffered(&[], &[b"abc"], true) == Ok((Ok(()), 2, 1)));
    assert!(rt; buffered(&[], &[&MANY], false) == Ok((Ok(()), 2, 0)));
    assert!(rt; buffered(&refusing, &[b"abc"], true) == Ok((refused, 2, 0)));
}
