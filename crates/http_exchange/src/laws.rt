//! A law of replies.
ghost use Rattle.std.specs.Prelude.{◌≡◌, codes};
ghost use Rattle.http_exchange.specs.ReplyHeads.{phrase_of};

/// The phrases of the codes that a server replies with.
pub fn phrases()
    ensures fine { phrase_of 200 ≡ codes "OK" }
    ensures bad { phrase_of 400 ≡ codes "Bad Request" }
    ensures forbidden { phrase_of 403 ≡ codes "Forbidden" }
    ensures lacking { phrase_of 404 ≡ codes "Not Found" }
    ensures method { phrase_of 405 ≡ codes "Method Not Allowed" }
    ensures long { phrase_of 413 ≡ codes "Payload Too Large" }
    ensures damaged { phrase_of 500 ≡ codes "Internal Server Error" }
    ensures later { phrase_of 503 ≡ codes "Service Unavailable" }
    ensures full { phrase_of 507 ≡ codes "Insufficient Storage" }
{}
