// What is printed, appended to what is written already.
use algebra::verdict::Verdict;
use answers::fault::ScriptFault;
use answers::text::{RefusedLine, Report, push_printed};
use std::test::Fail;

#[test]
fn appended(rt: HostRuntime) -> Result<(), Fail> {
    let mut out = Vec::new(rt.alloc());
    push_printed(&mut out, &Report::Opened)?;
    push_printed(&mut out, &Report::Decided(Verdict::Degenerate(1, 2, 3)))?;
    assert_eq!(rt; out.as_slice(), b"(opened)(degenerate 1 2 3)".as_slice());
    let fault = ScriptFault::OutOfTurn;
    push_printed(&mut out, &RefusedLine { number: 7, fault })?;
    assert_eq!(rt;
        &out.as_slice()[26..],
        b"(refused 26 4 7 0 0 0 0 0 0 0)".as_slice()
    );
    Ok(())
}
