//! Every refusal of the product, with its number, its name and its HTTP status.
#![tactic(auto)]

ghost use Rattle.std.specs.Prelude.{◌≡◌, true, false};
ghost use Rattle.refusals.specs.Table.{number_of, name_of, status_of, is_answered, row_of, answered, unanswered};
ghost use Rattle.refusals.specs.Rows.{IsRow};

pub mod laws;
mod refusal_text;

pub use refusal_text::RefusalText;

/// Why something was refused. A refusal leaves what it was asked of as it was, except where the
/// documented machine makes an entry in the journal.
#[derive(Clone, Copy, Debug, PartialEq, Eq)]
pub enum RefusalNumber {
    /// A program's bytes are none, no whole number of slots, or over 4,096 slots.
    Length,
    /// An opcode that RFC 9669 doesn't have, or a tail where an instruction is wanted.
    UnknownOpcode,
    /// A field that the instruction doesn't use and that isn't zero, or an offset, width or source that
    /// isn't listed.
    BadField,
    /// A register over R10, or R10 where it would be written.
    BadRegister,
    /// A wide immediate with no tail behind it.
    BadTail,
    /// An instruction of RFC 9669 that the profile leaves out.
    LeftOut,
    /// A jump that does not go forward.
    BackJump,
    /// A jump to or past the end of the program.
    JumpOut,
    /// A jump into the tail of a wide immediate.
    IntoTail,
    /// An instruction behind which the program goes on past its last slot.
    FallsOff,
    /// An instruction to which no edge leads.
    Unreachable,
    /// A register is read that may be unset.
    UnsetRegister,
    /// A pointer where a number is needed.
    PointerUsed,
    /// A stack pointer plus a number that is not constant.
    BadPointerSum,
    /// A number used as an address.
    NotPointer,
    /// An access that may lie outside its region.
    OutOfBounds,
    /// An access that may not be aligned to its size.
    Misaligned,
    /// A write to the context.
    ContextWrite,
    /// Stack bytes are read that may be unset.
    UnsetStack,
    /// A call of a helper that does not exist.
    HelperUnknown,
    /// An argument that the helper does not take.
    HelperArgument,
    /// An answer that may be over 2.
    AnswerRange,
    /// No memory for a program.
    ProgramOutOfMemory,
    /// The circuit breaker does not permit the call.
    CallNotPermitted,
    /// As many calls are under way as the bulkhead takes.
    BulkheadFull,
    /// A ticket that was never issued.
    NoTicket,
    /// A ticket that has ended.
    TicketSpent,
    /// Work that was judged by another program than that of the ticket's version, or by the same bytes for
    /// another layout.
    Stranger,
    /// No further program version can be held.
    VersionsFull,
    /// The journal has no room for the event; or, at a cut or a roll, a number is past 2^63.
    JournalFull,
    /// No memory for an event of a service.
    ServiceOutOfMemory,
    /// A cut while tickets are open.
    TicketsOpen,
    /// A word that the assembler does not know.
    UnknownWord,
    /// Operands of the wrong number or form.
    BadOperand,
    /// A number out of range in assembler text.
    BadNumber,
    /// Assembler text with no instruction, or with over 4,096 slots.
    BadTextLength,
    /// No memory to assemble or disassemble.
    AssemblerOutOfMemory,
    /// Text that is not hexadecimal.
    BadHex,
    /// A configuration that cannot be used.
    BadConfig,
    /// An address that cannot be bound.
    Listen,
    /// Bytes that begin no head of a message.
    BadHead,
    /// A head over 8,192 bytes or 32 fields.
    HeadTooLarge,
    /// A body over 65,536 bytes.
    BodyTooLarge,
    /// A Content-Length that is no number, or two that differ.
    BadContentLength,
    /// A Transfer-Encoding field.
    TransferCoding,
    /// A path that fits no route.
    NoRoute,
    /// A route asked with another method.
    WrongMethod,
    /// A text that is no JSON.
    BadJson,
    /// A value that is missing, of the wrong kind or out of range.
    BadValue,
    /// A name that no service has.
    NoService,
    /// An input that ends within a message.
    Truncated,
    /// The service's book is held by another call.
    Busy,
    /// No further seat can be given.
    SeatsFull,
    /// The end of a desk to which not all its seats came back.
    SeatsMissing,
}

/// A row of the table of refusals.
#[derive(Clone, Copy)]
struct Row {
    number: u8,
    name: &'static str,
    status: u16,
    is_answered: bool,
}

impl Row {
    fn answered(number: u8, name: &'static str, status: u16) -> Row
        ensures { IsRow (answered number name.now status) result }
    {
        Row {
            number,
            name,
            status,
            is_answered: true,
        }
    }

    /// The row of a refusal that HTTP never answers. In an answer it would be a fault of the server, whose
    /// status is 500 (RFC 9110, section 15.6.1).
    fn unanswered(number: u8, name: &'static str) -> Row
        ensures { IsRow (unanswered number name.now) result }
    {
        Row {
            number,
            name,
            status: 500,
            is_answered: false,
        }
    }
}

impl RefusalNumber {
    fn row(self) -> Row
        ensures { IsRow (row_of self) result }
    {
        match self {
            RefusalNumber::Length => Row::answered(1, "Length", 422),
            RefusalNumber::UnknownOpcode => Row::answered(2, "UnknownOpcode", 422),
            RefusalNumber::BadField => Row::answered(3, "BadField", 422),
            RefusalNumber::BadRegister => Row::answered(4, "BadRegister", 422),
            RefusalNumber::BadTail => Row::answered(5, "BadTail", 422),
            RefusalNumber::LeftOut => Row::answered(6, "LeftOut", 422),
            RefusalNumber::BackJump => Row::answered(7, "BackJump", 422),
            RefusalNumber::JumpOut => Row::answered(8, "JumpOut", 422),
            RefusalNumber::IntoTail => Row::answered(9, "IntoTail", 422),
            RefusalNumber::FallsOff => Row::answered(10, "FallsOff", 422),
            RefusalNumber::Unreachable => Row::answered(11, "Unreachable", 422),
            RefusalNumber::UnsetRegister => Row::answered(12, "UnsetRegister", 422),
            RefusalNumber::PointerUsed => Row::answered(13, "PointerUsed", 422),
            RefusalNumber::BadPointerSum => Row::answered(14, "BadPointerSum", 422),
            RefusalNumber::NotPointer => Row::answered(15, "NotPointer", 422),
            RefusalNumber::OutOfBounds => Row::answered(16, "OutOfBounds", 422),
            RefusalNumber::Misaligned => Row::answered(17, "Misaligned", 422),
            RefusalNumber::ContextWrite => Row::answered(18, "ContextWrite", 422),
            RefusalNumber::UnsetStack => Row::answered(19, "UnsetStack", 422),
            RefusalNumber::HelperUnknown => Row::answered(20, "HelperUnknown", 422),
            RefusalNumber::HelperArgument => Row::answered(21, "HelperArgument", 422),
            RefusalNumber::AnswerRange => Row::answered(22, "AnswerRange", 422),
            RefusalNumber::ProgramOutOfMemory => Row::answered(23, "OutOfMemory", 503),
            RefusalNumber::CallNotPermitted => Row::answered(31, "CallNotPermitted", 503),
            RefusalNumber::BulkheadFull => Row::answered(32, "BulkheadFull", 429),
            RefusalNumber::NoTicket => Row::answered(33, "NoTicket", 409),
            RefusalNumber::TicketSpent => Row::answered(34, "TicketSpent", 409),
            RefusalNumber::Stranger => Row::answered(35, "Stranger", 409),
            RefusalNumber::VersionsFull => Row::answered(36, "VersionsFull", 503),
            RefusalNumber::JournalFull => Row::answered(37, "JournalFull", 503),
            RefusalNumber::ServiceOutOfMemory => Row::answered(38, "OutOfMemory", 503),
            RefusalNumber::TicketsOpen => Row::answered(39, "TicketsOpen", 409),
            RefusalNumber::UnknownWord => Row::unanswered(41, "UnknownWord"),
            RefusalNumber::BadOperand => Row::unanswered(42, "BadOperand"),
            RefusalNumber::BadNumber => Row::unanswered(43, "BadNumber"),
            RefusalNumber::BadTextLength => Row::unanswered(44, "BadLength"),
            RefusalNumber::AssemblerOutOfMemory => Row::unanswered(45, "OutOfMemory"),
            RefusalNumber::BadHex => Row::unanswered(46, "BadHex"),
            RefusalNumber::BadConfig => Row::unanswered(47, "BadConfig"),
            RefusalNumber::Listen => Row::unanswered(48, "Listen"),
            RefusalNumber::BadHead => Row::answered(51, "BadHead", 400),
            RefusalNumber::HeadTooLarge => Row::answered(52, "HeadTooLarge", 431),
            RefusalNumber::BodyTooLarge => Row::answered(53, "BodyTooLarge", 413),
            RefusalNumber::BadContentLength => Row::answered(54, "BadLength", 400),
            RefusalNumber::TransferCoding => Row::answered(55, "TransferCoding", 501),
            RefusalNumber::NoRoute => Row::answered(56, "NoRoute", 404),
            RefusalNumber::WrongMethod => Row::answered(57, "WrongMethod", 405),
            RefusalNumber::BadJson => Row::answered(58, "BadJson", 400),
            RefusalNumber::BadValue => Row::answered(59, "BadField", 422),
            RefusalNumber::NoService => Row::answered(60, "NoService", 404),
            RefusalNumber::Truncated => Row::unanswered(61, "Truncated"),
            RefusalNumber::Busy => Row::unanswered(71, "Busy"),
            RefusalNumber::SeatsFull => Row::unanswered(72, "SeatsFull"),
            RefusalNumber::SeatsMissing => Row::unanswered(73, "SeatsMissing"),
        }
    }

    /// The number, from 1 to 73.
    pub fn number(self) -> u8
        ensures { result ≡ number_of self }
    {
        self.row().number
    }

    /// The name, as answers and the program print it. Refusals of different parts may share one.
    pub fn name(self) -> &'static str
        ensures { result.now ≡ name_of self }
    {
        self.row().name
    }

    /// The status code of an HTTP answer (RFC 9110, section 15). A refusal that HTTP never answers has 500,
    /// since an answer with it would be a fault of the server.
    pub fn status(self) -> u16
        ensures { result ≡ status_of self }
    {
        self.row().status
    }

    /// Whether HTTP answers it.
    pub fn is_answered(self) -> bool
        ensures { result ≡ is_answered self }
    {
        self.row().is_answered
    }
}
