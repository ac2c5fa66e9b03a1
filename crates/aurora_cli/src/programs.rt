//! The larger programs of `examples/`, and a text that is too long.
use crate::tests::{ends, run_bytes};
use run_model::Ending;
use sample_runs::programs::PROGRAMS;
use std::test::Fail;

#[test]
fn programs(rt: HostRuntime) -> Result<(), Fail> {
    for (text, lines) in PROGRAMS {
        assert!(rt;
            ends(
                &rt,
                rt.alloc(),
                text,
                "100000",
                999,
                Ending::Finished,
                lines
            )?,
            "{lines}"
        );
    }
    Ok(())
}

#[test]
fn text_too_long(rt: HostRuntime) -> Result<(), Fail> {
    let alloc = rt.alloc();
    let mut text = Vec::new(alloc);
    text.resize(16_777_217, b' ')?;
    assert_eq!(rt;
        run_bytes(&rt, alloc, &text)?,
        (Ending::TooLong, 16_777_217)
    );
    Ok(())
}
