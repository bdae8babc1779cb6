use commands::{StartFault, Terminals, args_of, print_start_fault};
use history_text::Watched;
use std::alloc::Global;
use std::env::{Env, FillError};

/// Arguments of a command line, and no variables.
#[derive(Drop)]
struct Given<'a> {
    args: &'a [&'a [u8]],
}

impl Env for Given<'_> {
    fn arg(&self, i: usize, buf: &mut [u8]) -> Result<usize, FillError> {
        let Some(word) = self.args.get(i) else {
            return Err(FillError::NotPresent);
        };
        if word.len() > buf.len() {
            return Err(FillError::TooLong);
        }
        buf[..word.len()].copy_from_slice(word);
        Ok(word.len())
    }

    fn var(&self, _name: &str, _buf: &mut [u8]) -> Result<usize, FillError> {
        Err(FillError::NotPresent)
    }

    fn var_at(&self, _i: usize, _buf: &mut [u8]) -> Result<usize, FillError> {
        Err(FillError::NotPresent)
    }
}

/// Returns the number of arguments and whether the second is this word, or the fault if there are none.
fn read(alloc: Global, args: &[&[u8]], word: &str) -> Result<(usize, bool), StartFault> {
    let args = args_of(&(Given { args }, alloc))?;
    let second = args.as_slice().get(1);
    Ok((
        args.len(),
        second.is_some_and(|second| second.as_str() == word),
    ))
}

#[test]
fn words_are_read_as_text(rt: HostRuntime) {
    let text = read(rt.alloc(), &[b"fifobench", b"\xc3\xa9", b""], "\u{e9}");
    assert!(rt; text == Ok((3, true)));
    let no_text = read(rt.alloc(), &[b"fifobench", b"check", b"\xff"], "check");
    assert!(rt; no_text == Err(StartFault::NoText));
}

/// Returns the output for an argument that isn't UTF-8, and the status.
fn explained(alloc: Global) -> (Vec<u8>, u8) {
    let mut writer = Watched::new(Vec::new(alloc));
    let mut errors = Watched::new(Vec::new(alloc));
    let fault = StartFault::NoText;
    let status = print_start_fault(fault, &mut writer, &mut errors, Terminals::NONE);
    (writer.into_inner(), status)
}

#[test]
fn words_that_are_no_text_are_a_mistake(rt: HostRuntime) {
    let (written, status) = explained(rt.alloc());
    let wanted = b"error: a word is not valid UTF-8\n".as_slice();
    assert!(rt; status == 2 && written.as_slice() == wanted);
}
