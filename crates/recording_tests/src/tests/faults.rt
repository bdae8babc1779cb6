use std::test::Fail;
use stress_run::{RunFault, least_fault};

const LEAST: [(&[RunFault], Option<RunFault>); 6] = [
    (
        &[RunFault::CloseLost(0), RunFault::Stalled(1)],
        Some(RunFault::Stalled(1)),
    ),
    (
        &[RunFault::Uncertified(0), RunFault::Memory],
        Some(RunFault::Memory),
    ),
    (
        &[RunFault::Stalled(3), RunFault::Stalled(1)],
        Some(RunFault::Stalled(1)),
    ),
    (
        &[RunFault::Preload(0), RunFault::Uncertified(1)],
        Some(RunFault::Uncertified(1)),
    ),
    (
        &[RunFault::Preload(2), RunFault::Preload(1)],
        Some(RunFault::Preload(1)),
    ),
    (&[], None),
];

#[test]
fn the_least_fault_is_answered(rt: HostRuntime) {
    for (faults, least) in LEAST {
        assert!(rt; least_fault(faults) == least, "{least:?}");
    }
}

const TEXTS: [(RunFault, &str); 4] = [
    (RunFault::Roles, "Roles"),
    (RunFault::Memory, "Memory"),
    (RunFault::Stalled(3), "Stalled 3"),
    (RunFault::Preload(7), "Preload 7"),
];

#[test]
fn a_fault_tells_its_thread_or_place(rt: HostRuntime) -> Result<(), Fail> {
    for (fault, text) in TEXTS {
        assert!(rt;
            format!(in rt.alloc(); "{fault}")?.as_str() == text,
            "{text}"
        );
    }
    Ok(())
}
