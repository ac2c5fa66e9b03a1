//! The program's status for each ending, as the manual tells it.
use au_model::FaultKind;
use run_model::{Ending, UsageKind, code};

#[test]
fn codes_of_endings(rt: HostRuntime) {
    for (ending, status) in [
        (Ending::Finished, 0),
        (Ending::Halted(0), 0),
        (Ending::Halted(63), 63),
        (Ending::Usage(UsageKind::Words), 64),
        (Ending::Usage(UsageKind::Texts), 64),
        (
            Ending::Refused {
                line: 1,
                column: 9,
                kind: FaultKind::UnexpectedEnd,
            },
            65,
        ),
        (Ending::ReadFault, 66),
        (Ending::Budget, 67),
        (Ending::WriteFault, 68),
        (Ending::NoMemory, 69),
        (Ending::TooLong, 70),
    ] {
        assert_eq!(rt; code(&ending), status, "{ending:?}");
    }
}
