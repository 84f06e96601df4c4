//! The message at the front of the bytes that were read.
ghost use Rattle.std.specs.Prelude.{◌≡◌, ◌≤◌, drop, length};
ghost use Rattle.httparse.specs.Grammar.{RequestHead};
ghost use Rattle.http_messages.specs.Fronts.{IsHeadAt};
ghost use Rattle.http_connection.specs.Reading.{IsWholeAt, message_of};
ghost use Rattle.http_connection.specs.Requests.{http_request_data, request_of};

use crate::responder::HttpRequest;
use http_messages::Head;

/// The request at the front of the unread bytes.
pub(crate) fn request_at<'a>(unread: &'a [u8], head: &Head) -> HttpRequest<'a>
    requires whole { IsWholeAt unread.now head.now }
    ensures { (h : RequestHead) → IsHeadAt unread.now head.now h → http_request_data result ≡ request_of (message_of unread.now head.now h) }
{
    HttpRequest {
        method: head.method.of(unread),
        target: head.target.of(unread),
        body: &unread[head.size..head.size + head.body],
        closes: head.closes,
    }
}

/// Drops the first bytes.
pub(crate) fn drop_front(unread: &mut Vec<u8>, count: usize)
    requires within { count ≤ length unread.old.items }
    ensures { unread.new.items ≡ drop count unread.old.items }
{
    if count == unread.len() {
        unread.clear();
        return;
    }
    unread.drain(..count);
}
