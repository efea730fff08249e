//! The numbers with which the program ends.

use eq_compose::Whole;
use eq_report::Status;
use std::test::Fail;

const ROWS: [(Status, u8); 6] = [
    (Status::Ended(Whole::Pass), 0),
    (Status::Ended(Whole::Fail), 2),
    (Status::Ended(Whole::Unknown), 4),
    (Status::Refused, 16),
    (Status::Fault, 17),
    (Status::NoMemory, 18),
];

#[test]
fn statuses_have_their_numbers(rt: HostRuntime) -> Result<(), Fail> {
    let wrong = ROWS.iter().position(|row| row.0.number() != row.1);
    assert_eq!(rt; wrong, None);
    Ok(())
}
