//! Cases as lines of a text.
use std::alloc::Global;
use std::process::Abort;
use std::test::Fail;
use std::thread::Threads;

/// A call, with its result as a text.
pub(crate) trait Call {
    fn outcome(
        rt: &(impl Abort + Threads + Sync),
        alloc: Global,
        given: &str,
    ) -> Result<String, Fail>;
}

/// What is given in a line `GIVEN -> WANTED`, and what is wanted.
pub(crate) fn given_and_wanted<'a>(rt: &impl Abort, line: &'a str) -> (&'a str, &'a str) {
    line.split_once(" -> ").expect(rt, "an arrow")
}

/// Whether the call gives for each line what is wanted.
pub(crate) fn judge<C: Call>(
    rt: &(impl Abort + Threads + Sync),
    alloc: Global,
    cases: &str,
) -> Result<(), Fail> {
    for line in cases.lines() {
        let (given, wanted) = given_and_wanted(rt, line);
        let found = C::outcome(rt, alloc, given)?;
        assert_eq!(rt; found.as_str(), wanted, "{given}");
    }
    Ok(())
}
