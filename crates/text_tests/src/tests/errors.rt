use history_merge::HistoryFault;
use history_text::{TextFault, WriteFault};
use recorder_core::StepRefused;
use std::test::Fail;

#[test]
fn errors_show_their_names_and_places(rt: HostRuntime) -> Result<(), Fail> {
    let shown = format!(in rt.alloc();
        "{}, {}, {}, {}, {}, {}, {}",
        TextFault::Cut,
        TextFault::Line(2),
        HistoryFault::TicketOrder(3),
        HistoryFault::Pending(40),
        HistoryFault::Memory,
        StepRefused::RingFull,
        WriteFault::Write
    )?;
    assert_eq!(rt;
        shown.as_str(),
        "Cut, Line 2, TicketOrder 3, Pending 40, Memory, RingFull, Write"
    );
    Ok(())
}

#[test]
fn faults_tell_their_names_and_places(rt: HostRuntime) {
    let names = [
        TextFault::Limit(7).name(),
        HistoryFault::BadThread(5).name(),
        StepRefused::NoAnswer.name(),
    ];
    let places = [
        TextFault::Limit(7).line(),
        TextFault::Trailing.line(),
        HistoryFault::BadThread(5).place(),
    ];
    assert!(rt; names == ["Limit", "BadThread", "NoAnswer"]);
    assert!(rt; places == [Some(7), None, Some(5)]);
}
