//! Heads of replies.
use blobref::NoMemory;
use http_exchange::reply_head;

#[test]
fn heads_of_replies(rt: HostRuntime) -> Result<(), NoMemory> {
    let found = reply_head(rt.alloc(), 200, "application/json", 97, false, "")?;
    assert_eq!(rt;
        found.as_slice(),
        b"HTTP/1.1 200 OK\r\nContent-Type: application/json\r\nContent-Length: 97\r\n\r\n".as_slice()
    );
    let refused = reply_head(rt.alloc(), 405, "application/json", 18, true, "GET, POST")?;
    assert_eq!(rt;
        refused.as_slice(),
        b"HTTP/1.1 405 Method Not Allowed\r\nContent-Type: application/json\r\nContent-Length: 18\r\nAllow: GET, POST\r\nConnection: close\r\n\r\n".as_slice()
    );
    Ok(())
}
