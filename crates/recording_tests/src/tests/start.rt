use std::test::Fail;
use stress_run::Start;

#[test]
fn nobody_waits_for_ever(rt: HostRuntime) -> Result<(), Fail> {
    let start = Start::new(3);
    // The others never come. The first worker uses up its turns, and then the start is open.
    assert!(rt; !start.sees_all());
    start.meet();
    assert!(rt; start.sees_all());
    start.meet();
    Ok(())
}
