//! Lines of refused steps.
ghost use Rattle.std.specs.Prelude.{◌≡◌, []};
ghost use Rattle.text_lines.specs.Writing.{Writes};
ghost use Rattle.commands.specs.Answers.{rejection_line, rejection_lines};

use history_text::{TextSink, WriteFault, write_piece};
use simulation::Rejection;
use text_lines::WriteBuffer;

/// Writes a line for each refused step.
pub(crate) fn write_rejections<W: TextSink>(
    rejections: &[Rejection],
    writer: &mut W,
) -> Result<(), WriteFault>
    ensures { Writes W.contents W.has_refused W.transition
        (rejection_lines rejections.now) writer.old writer.new result }
{
    let mut kept = WriteBuffer::new();
    for rejection in rejections {
        kept.clear();
        push_rejection(*rejection, &mut kept);
        write_piece(kept.as_slice(), writer)?;
    }
    Ok(())
}

/// Appends the line of a refused step.
fn push_rejection(rejection: Rejection, kept: &mut WriteBuffer)
    requires { kept.old ≡ [] }
    ensures { kept.new ≡ rejection_line rejection }
{
    kept.push(b"REJECTED ");
    kept.push_field(rejection.step);
    kept.push(rejection.reason.name().as_bytes());
    kept.push(b"\n");
}
