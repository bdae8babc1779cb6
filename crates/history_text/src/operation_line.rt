//! The lines of verdicts, parsed by their forms: the first line, operations, and the initial values of a `NO`.
ghost use Rattle.std.specs.Prelude.{◌≡◌, ◌≤◌, IfErr, IfOk, MatchOption, slice_index};
ghost use Rattle.std.proofs.Common.{lit≤};
ghost use Rattle.text_lines.specs.Lines.{IsLineFault, fields_of};
ghost use Rattle.history_text.specs.Items.{read_by};
ghost use Rattle.history_text.specs.Inner.Taking.{IsSpelled};
ghost use Rattle.history_text.specs.Claims as wanted;
ghost use Rattle.history_text.specs.Claims.{operation_format, claim_line_format, IsNoFirstLine, first_line};

use crate::event_line::{THREAD, TICKET, VALUE};
use crate::item::Item;
use claims::{ClaimLine, ViolationKind};
use event_records::{MAX_CLAIM_LINES, MAX_THREAD};
use history_merge::{OpKind, Operation};
use text_lines::{Field, NumberFields, TextFault, split_field};

/// Parses the first line of a verdict. Returns no kind for a `YES`, the kind for a `NO`.
pub(crate) fn answer_in(bytes: &[u8]) -> Option<Option<ViolationKind>>
    ensures { MatchOption result (IsNoFirstLine bytes.now) (λ answer. bytes.now ≡ first_line answer) }
{
    if bytes == b"YES".as_slice() {
        Some(None)
    } else if bytes == b"NO VFresh".as_slice() {
        Some(Some(ViolationKind::VFresh))
    } else if bytes == b"NO VRepeat".as_slice() {
        Some(Some(ViolationKind::VRepeat))
    } else if bytes == b"NO VOrd".as_slice() {
        Some(Some(ViolationKind::VOrd))
    } else if bytes == b"NO VWit".as_slice() {
        Some(Some(ViolationKind::VWit))
    } else {
        None
    }
}

/// The forms of operation lines, each with the kind of its operations, with 0 as the value.
const OPERATION_FORMS: [(OpKind, &[Field]); 4] = [
    (
        OpKind::Enqueue(0),
        &[TICKET, TICKET, THREAD, Field::Word(b"enq"), VALUE],
    ),
    (
        OpKind::Dequeue(0),
        &[TICKET, TICKET, THREAD, Field::Word(b"deq"), VALUE],
    ),
    (
        OpKind::DequeueEmpty,
        &[TICKET, TICKET, THREAD, Field::Word(b"empty")],
    ),
    (
        OpKind::EnqueueFailed(0),
        &[TICKET, TICKET, THREAD, Field::Word(b"not"), VALUE],
    ),
];

/// The form of the line of an initial value.
const INITIAL_FORMS: [((), &[Field]); 1] = [((), &[Field::Word(b"init"), VALUE])];

/// Replaces the value of a kind of operations, if it has one.
fn kind_with(kind: OpKind, value: u64) -> OpKind
    ensures { result ≡ wanted.kind_with kind value }
{
    match kind {
        OpKind::Enqueue(_) => OpKind::Enqueue(value),
        OpKind::Dequeue(_) => OpKind::Dequeue(value),
        OpKind::DequeueEmpty => OpKind::DequeueEmpty,
        OpKind::EnqueueFailed(_) => OpKind::EnqueueFailed(value),
    }
}

/// Makes the operation of a line from its form and its numbers.
fn operation_of(kind: OpKind, numbers: &NumberFields) -> Operation
    requires { slice_index numbers.now 2 ≤ MAX_THREAD }
    ensures { result ≡ wanted.operation_of kind numbers.now }
{
    Operation {
        call: numbers.at(0),
        ret: numbers.at(1),
        thread: numbers.at(2) as u8,
        kind: kind_with(kind, numbers.at(3)),
    }
}

/// Parses the operation of a line, or returns the first fault of its fields.
fn read_operation(line: u64, bytes: &[u8]) -> Result<Operation, TextFault>
    ensures value { result ≡ read_by wanted.operation_forms wanted.operation_of line (fields_of bytes.now) }
    ensures of_line { IfErr result IsLineFault }
    ensures spelled { IfOk result (IsSpelled operation_format (fields_of bytes.now)) }
{
    let (kind, numbers) = text_lines::parse_line(line, &OPERATION_FORMS, bytes)?;
    Ok(operation_of(kind, &numbers))
}

/// Returns whether the first field is that of an initial value.
fn is_initial(bytes: &[u8]) -> bool
    ensures { result ≡ wanted.is_initial (fields_of bytes.now) }
{
    match split_field(bytes) {
        Some((word, _rest)) => word == b"init".as_slice(),
        None => bytes == b"init".as_slice(),
    }
}

impl Item for Operation {
    ghost format = { operation_format };

    ghost few = { lit≤ tt };

    fn limits() -> (usize, bool) {
        (MAX_CLAIM_LINES as usize, false)
    }

    fn from_line(line: u64, bytes: &[u8]) -> Result<Operation, TextFault> {
        if is_initial(bytes) {
            return Err(TextFault::Line(line));
        }
        read_operation(line, bytes)
    }
}

impl Item for ClaimLine {
    ghost format = { claim_line_format };

    fn from_line(line: u64, bytes: &[u8]) -> Result<ClaimLine, TextFault> {
        if is_initial(bytes) {
            let (_, numbers) = text_lines::parse_line(line, &INITIAL_FORMS, bytes)?;
            return Ok(ClaimLine::Initial(numbers.at(0)));
        }
        let operation = read_operation(line, bytes)?;
        Ok(ClaimLine::Op(operation))
    }

    fn limits() -> (usize, bool) {
        (MAX_CLAIM_LINES as usize, false)
    }

    ghost few = { lit≤ tt };
}
