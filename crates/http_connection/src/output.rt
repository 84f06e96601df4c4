//! Writing what is pending.
ghost use Rattle.std.specs.Prelude.{◌≡◌, ◌++◌, List, ℕ};
ghost use Rattle.std.specs.Io.KnownBytes.{Appends};
ghost use Rattle.http_connection.specs.Calls.{IsWritten};

use crate::connection::Connection;
use counted_io::{Polling, Transport};

/// How writing ended.
#[derive(Clone, Copy)]
pub(crate) enum Written {
    /// All is written.
    All,
    /// The writer takes no more for now.
    Part,
    /// A write failed.
    Failed,
}

/// Writes what is pending, as far as the writer takes it at once.
pub(crate) fn write_pending<T: Transport>(connection: &mut Connection, transport: &mut T) -> Written
    ensures sent { (sent : List ℕ) × Appends (T.contents transport.old) (T.contents transport.new) sent × (connection.old.pending ≡ sent ++ connection.new.pending) }
    ensures stage { connection.new.stage ≡ connection.old.stage }
    ensures unread { connection.new.unread ≡ connection.old.unread }
    ensures answers { connection.new.answers ≡ connection.old.answers }
    ensures written { IsWritten result connection.new.pending (T.writes transport.old) (T.writes transport.new) }
    ensures apart { T.remaining transport.new ≡ T.remaining transport.old }
    ensures reads { T.reads transport.new ≡ T.reads transport.old }
    ensures lenders { T.lenders transport.new ≡ T.lenders transport.old }
{
    'pieces: while connection.sent < connection.text.len() {
        match transport.put(&connection.text[connection.sent..]) {
            Polling::Done(taken) => connection.sent += taken,
            Polling::Waits => return Written::Part,
            Polling::Failed => return Written::Failed,
        }
    }
    Written::All
}
