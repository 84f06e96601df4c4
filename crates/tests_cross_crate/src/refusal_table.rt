//! Rows of the table as answers print them.
use crate::checks::same_at;
use refusals::RefusalNumber;
use std::process::Abort;

/// A refusal, its number, its name, its status, and whether it is answered.
type Row = (RefusalNumber, u8, &'static str, u16, bool);

/// Checks what is said of refusals.
fn are_rows(rt: &impl Abort, rows: &[Row]) {
    for row in rows {
        let (refusal, number, name, status, is_answered) = *row;
        same_at(rt, refusal.number(), number, row);
        same_at(rt, refusal.name(), name, row);
        same_at(rt, refusal.status(), status, row);
        same_at(rt, refusal.is_answered(), is_answered, row);
    }
}

#[test]
fn rows_are_those_of_answers(rt: HostRuntime) {
    are_rows(
        &rt,
        &[
            (RefusalNumber::AnswerRange, 22, "AnswerRange", 422, true),
            (
                RefusalNumber::ProgramOutOfMemory,
                23,
                "OutOfMemory",
                503,
                true,
            ),
            (
                RefusalNumber::CallNotPermitted,
                31,
                "CallNotPermitted",
                503,
                true,
            ),
            (RefusalNumber::BulkheadFull, 32, "BulkheadFull", 429, true),
            (RefusalNumber::TicketSpent, 34, "TicketSpent", 409, true),
            (RefusalNumber::JournalFull, 37, "JournalFull", 503, true),
            (RefusalNumber::BadTextLength, 44, "BadLength", 500, false),
            (RefusalNumber::BadConfig, 47, "BadConfig", 500, false),
            (
                RefusalNumber::TransferCoding,
                55,
                "TransferCoding",
                501,
                true,
            ),
            (RefusalNumber::BadValue, 59, "BadField", 422, true),
            (RefusalNumber::SeatsMissing, 73, "SeatsMissing", 500, false),
        ],
    );
}
