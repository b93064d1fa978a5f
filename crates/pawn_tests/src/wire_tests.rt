//! Each call that allocates memory is run once, and its answer is checked. So are bodies whose length differs from the
//! one in their heads.

use pawn_book::{
    BrokerRequest, Caller, Kind, Number, PledgeRefusal, Receipt, Refusal, Reply, Request, Secret,
};
use pawn_reply::{Out, WireFault, into_reply, write_reply};
use pawn_wire::{Router, read_request};
use std::alloc::{AllocError, Global};
use std::process::Abort;
use std::test::Fail;

fn asked(rt: &impl Abort, alloc: Global, bytes: &[u8]) -> Result<Request, WireFault> {
    let Ok(router) = Router::new(alloc) else {
        panic!(rt; "no memory");
    };
    read_request(alloc, &router, bytes)
}

/// Returns a broker's request for a target of book 7, with this body and with `length` as the length in its head.
fn post(alloc: Global, target: &str, length: usize, body: &[u8]) -> Result<Vec<u8>, AllocError> {
    let head = format!(in alloc;
        "POST /books/7/{target} HTTP/1.1\r\nPledge-Key: 22222222-2222-2222-2222-222222222222\r\nContent-Length: {length}\r\n\r\n"
    )?;
    let mut bytes = head.into_bytes();
    bytes.extend_from_slice(body)?;
    Ok(bytes)
}

#[test]
fn a_request_takes_a_pledge(rt: HostRuntime) -> Result<(), Fail> {
    let body =
        b"{\"agreed\":null,\"article\":\"Gold ring\",\"five_days\":false,\"kind\":\"fixed\",\"pence\":10000,\"ref\":\"A1\"}";
    let bytes = post(rt.alloc(), "pledges", body.len(), body)?;
    match asked(&rt, rt.alloc(), bytes.as_slice()).map(|request| request.caller) {
        Ok(
            Caller::Broker {
                key: _,
                asked: BrokerRequest::TakePledge(opening),
            },
        ) => {
            assert_eq!(rt; opening.reference.as_str(), "A1");
            assert_eq!(rt; opening.article.as_str(), "Gold ring");
            assert!(rt; opening.kind == Kind::Fixed(10_000));
        }
        _ => panic!(rt; "no opening"),
    }
    Ok(())
}

#[test]
fn replies_are_written(rt: HostRuntime) -> Result<(), Fail> {
    let opened = Out::Done(Reply::Opened(Receipt {
        number: Number::new(1).ok_or("no number")?,
        secret: Secret::of_word(0xda41_597c_5157_488d_7724_e03f_b8d8_4a37),
    }));
    let refused = Out::Refused(Refusal::Pledge(PledgeRefusal::WrongAmount { total: 7501 }));
    let shown = Out::Plain(Vec::from_slice(rt.alloc(), b"Pledge 1\n")?);
    for (out, wanted) in [
        (
            opened,
            "HTTP/1.1 200 OK\r\nContent-Length: 63\r\nContent-Type: application/json\r\n\r\n\
                {\"number\":1,\"receipt\":\"1-da41597c-5157-488d-7724-e03fb8d84a37\"}",
        ),
        (
            refused,
            "HTTP/1.1 409 Conflict\r\nContent-Length: 46\r\nContent-Type: application/json\r\n\r\n{\"code\":310,\"name\":\"WrongAmount\",\"total\":7501}",
        ),
        (
            Out::Fault(WireFault::NoRoute),
            "HTTP/1.1 404 Not Found\r\nContent-Length: 29\r\nContent-Type: application/json\r\n\r\n{\"code\":706,\"name\":\"NoRoute\"}",
        ),
        (
            shown,
            "HTTP/1.1 200 OK\r\nContent-Length: 9\r\nContent-Type: text/plain; charset=utf-8\r\n\r\nPledge 1\n",
        ),
    ] {
        let reply = write_reply(rt.alloc(), &out)?;
        assert!(rt; reply.as_slice() == wanted.as_bytes(), "not {wanted}");
        let made = into_reply(rt.alloc(), out)?;
        assert!(rt;
            made.as_slice() == wanted.as_bytes(),
            "made to other bytes than {wanted}"
        );
    }
    Ok(())
}

#[test]
fn a_body_is_as_long_as_its_head_states(rt: HostRuntime) -> Result<(), Fail> {
    let alloc = rt.alloc();
    let body = b"{\"keep_after\":0,\"keep_before\":0,\"rate\":0,\"version\":7}";
    for length in [body.len() - 1, body.len() + 1] {
        let bytes = post(alloc, "terms", length, body)?;
        let said = asked(&rt, alloc, bytes.as_slice());
        assert_eq!(rt; said.err(), Some(WireFault::BadLength));
    }
    Ok(())
}
