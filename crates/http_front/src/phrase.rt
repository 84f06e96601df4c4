//! Reason phrases.
ghost use Rattle.std.specs.Prelude.{◌≡◌};
ghost use Rattle.http_front.specs.Messages.{phrase_of};

use http::StatusCode;

/// The reason phrase of a status code (RFC 9110, section 15); empty where there is none.
#[tactic(auto, unfolding(crate::specs::Messages::phrase_of))]
pub(crate) fn phrase_of(status: u16) -> &'static str
    ensures { result.now ≡ phrase_of status }
{
    match StatusCode::from_u16(status) {
        Ok(code) => code.canonical_reason().unwrap_or(""),
        Err(_) => "",
    }
}
