//! What is refused before the body of a request is read.
ghost use Rattle.std.specs.Prelude.{◌≡◌, IfOk, IfErr, Ok, Err, option_copied};
ghost use Rattle.blob_routes.specs.Before.{boundary_in, upload_early};

use answer_text::Refusal;
use http_exchange::check_length;
use http_wire::Framing;
use multipart_read::{MAX_BYTES, boundary_of};

fn boundary_in(content_type: Option<&[u8]>) -> Option<&[u8]>
    ensures { option_copied result ≡ boundary_in (option_copied content_type.entry) }
{
    boundary_of(content_type?)
}

/// The boundary of an upload, or what it is refused for before its body is read, by its content type and by how long
/// the body is said to be (`docs/http.md`, "Routes"). The length of a body in chunks is known only as it is read. No
/// memory is taken.
pub fn boundary_of_upload<'a>(
    framing: &Framing,
    content_type: Option<&'a [u8]>,
) -> Result<&'a [u8], Refusal>
    ensures ok { IfOk result
        (λ boundary. upload_early framing.now (option_copied content_type.entry) ≡ Ok boundary.now) }
    ensures err { IfErr result
        (λ refusal. upload_early framing.now (option_copied content_type.entry) ≡ Err refusal) }
{
    let Some(boundary) = boundary_in(content_type) else {
        return Err(Refusal::BadMultipart { at: 0 });
    };
    match check_length(MAX_BYTES, framing) {
        Ok(()) => Ok(boundary),
        Err(refusal) => Err(refusal),
    }
}
