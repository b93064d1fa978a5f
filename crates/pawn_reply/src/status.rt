//! The statuses of replies.
ghost use Rattle.pawn_reply.specs.Status.{reply_status};
ghost use Rattle.std.specs.Prelude.{◌≡◌};

use http::StatusCode;

/// Returns the HTTP status for the code of a refusal or a fault: 409, unless another one is listed for it.
pub(crate) fn status_of(code: u16) -> StatusCode
    ensures value { result ≡ reply_status code }
{
    match code {
        101..=104 | 201 | 313 | 601..=607 | 701..=705 | 707..=712 => StatusCode::BAD_REQUEST,
        410 => StatusCode::FORBIDDEN,
        401..=403 | 706 => StatusCode::NOT_FOUND,
        490..=492 => StatusCode::SERVICE_UNAVAILABLE,
        _ => StatusCode::CONFLICT,
    }
}
