//! Texts whose goals write, look at the world, change it, or end the run.
use crate::tests::{ends, is_in_error};
use sample_runs::worlds::{WORLD, WORLD_ERRORS};
use std::test::Fail;

#[test]
fn goals_of_the_world(rt: HostRuntime) -> Result<(), Fail> {
    for (text, budget, ending, lines) in WORLD {
        assert!(rt;
            ends(&rt, rt.alloc(), text, budget, 999, ending, lines)?,
            "{text} {budget}"
        );
    }
    Ok(())
}

#[test]
fn errors_of_the_world(rt: HostRuntime) -> Result<(), Fail> {
    for (goal, error) in WORLD_ERRORS {
        assert!(rt; is_in_error(&rt, rt.alloc(), goal, error)?, "{goal}");
    }
    Ok(())
}
