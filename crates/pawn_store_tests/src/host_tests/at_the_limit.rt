//! Each request at the row limit, over a list: a request that adds a row is refused, and any other is answered. The
//! file `tests/turns/at_the_limit.txt` has the same over the tables of a file.

use super::{bytes_of, service_of, stamp_on};
use pawn_host::Service;
use pawn_list_keeper::ListKeep;
use std::alloc::Global;
use std::process::Abort;
use std::test::Fail;

/// A request and its reply: the fields that identify the caller, the target, the body, and the body of the reply.
#[derive(Clone, Copy)]
struct Line {
    by: &'static str,
    target: &'static str,
    body: &'static str,
    reply: &'static str,
}

const OPERATOR: &str = "Pledge-Key: 11111111-1111-1111-1111-111111111111";

const BROKER: &str = "Pledge-Key: 22222222-2222-2222-2222-222222222222";

const IMPORT: &str =
    "Pledge-Key: 22222222-2222-2222-2222-222222222222\r\nImport-Key: 44444444-0000-0000-0000-000000000000";

const BEARER_1: &str = "Pledge-Receipt: 1-00000000-0000-0000-0000-000000000002";

const BEARER_2: &str = "Pledge-Receipt: 2-00000000-0000-0000-0000-000000000003";

const DONE: &[u8] = b"HTTP/1.1 200 OK\r\n";

const REFUSED: &[u8] = b"HTTP/1.1 503 Service Unavailable\r\n";

const FULL: &str = "{\"code\":490,\"name\":\"Full\"}";

/// The text of a book without terms.
const EMPTY_BOOK: &str = book_text!("B,2,0,0,,,,,,,,,,,\n");

/// The text of a book with one pledge.
const ONE_RING: &str = book_text!(
    "B,2,1,1,,,,,,,,,,,\nT,1,0,0,0,,,,,,,,,,\n\
            P,1,A1,Gold ring,fixed,10000,2024-01-31,,no,1,no,2024-01-31,open,,\nS,1,1,2024-01-31,opening,00000000-0000-0000-0000-000000000009,,,,,,,,,\n"
);

/// The request that makes the book. It is repeated when the service is full.
const BOOK: Line = Line {
    by: OPERATOR,
    target: "POST /books/7",
    body: "{\"capacity\":1,\"key\":\"22222222-2222-2222-2222-222222222222\",\"name\":\"High Street\"}",
    reply: "{\"book\":7}",
};

const TERMS: Line = Line {
    by: BROKER,
    target: "POST /books/7/terms",
    body: "{\"keep_after\":0,\"keep_before\":0,\"rate\":0,\"version\":1}",
    reply: "{\"version\":1}",
};

const RING: Line = Line {
    by: BROKER,
    target: "POST /books/7/pledges",
    body: "{\"article\":\"Gold ring\",\"five_days\":false,\"kind\":\"fixed\",\"pence\":10000,\"ref\":\"A1\"}",
    reply: "{\"number\":1,\"receipt\":\"1-00000000-0000-0000-0000-000000000002\"}",
};

const REPAYMENT: Line = Line {
    by: BROKER,
    target: "POST /books/7/pledges/1/repay",
    body: "{\"pence\":100,\"seq\":1}",
    reply: "{\"day\":\"2024-01-31\",\"pence\":100,\"seq\":1,\"sort\":\"repay\"}",
};

const DRAWING: Line = Line {
    by: BROKER,
    target: "POST /books/7/pledges/2/draw",
    body: "{\"pence\":300,\"seq\":1}",
    reply: "{\"day\":\"2024-01-31\",\"pence\":300,\"seq\":1,\"sort\":\"draw\"}",
};

/// Two books, terms, three pledges with a receipt each, two entries and a booking, which count as twelve rows.
const FILLING: [Line; 9] = [
    BOOK,
    TERMS,
    RING,
    Line {
        by: BROKER,
        target: "POST /books/7/pledges",
        body: "{\"article\":\"Gold ring\",\"five_days\":false,\"kind\":\"running\",\"pence\":10000,\"ref\":\"A2\"}",
        reply: "{\"number\":2,\"receipt\":\"2-00000000-0000-0000-0000-000000000003\"}",
    },
    Line {
        by: BROKER,
        target: "POST /books/7/pledges",
        body: "{\"article\":\"Gold ring\",\"five_days\":false,\"kind\":\"fixed\",\"pence\":10000,\"ref\":\"A3\"}",
        reply: "{\"number\":3,\"receipt\":\"3-00000000-0000-0000-0000-000000000004\"}",
    },
    Line {
        by: OPERATOR,
        target: "POST /books/8",
        body: "{\"capacity\":1,\"key\":\"22222222-2222-2222-2222-222222222222\",\"name\":\"High Street\"}",
        reply: "{\"book\":8}",
    },
    REPAYMENT,
    DRAWING,
    Line {
        by: BEARER_1,
        target: "POST /books/7/held/ask",
        body: "{\"day\":\"2024-03-04\",\"window\":3}",
        reply: "{\"booking\":\"asked\",\"day\":\"2024-03-04\",\"window\":3}",
    },
];

/// Each request that adds a row.
const ADDING: [Line; 10] = [
    Line {
        by: OPERATOR,
        target: "POST /books/9",
        body: "{\"capacity\":1,\"key\":\"22222222-2222-2222-2222-222222222222\",\"name\":\"High Street\"}",
        reply: FULL,
    },
    Line {
        by: BROKER,
        target: "POST /books/7/terms",
        body: "{\"keep_after\":0,\"keep_before\":0,\"rate\":1,\"version\":2}",
        reply: FULL,
    },
    Line {
        by: BROKER,
        target: "POST /books/8/terms",
        body: "{\"keep_after\":0,\"keep_before\":0,\"rate\":0,\"version\":1}",
        reply: FULL,
    },
    Line {
        by: BROKER,
        target: "POST /books/7/pledges",
        body: "{\"article\":\"Gold ring\",\"five_days\":false,\"kind\":\"fixed\",\"pence\":10000,\"ref\":\"A4\"}",
        reply: FULL,
    },
    Line {
        by: BROKER,
        target: "POST /books/7/pledges/2/draw",
        body: "{\"pence\":300,\"seq\":2}",
        reply: FULL,
    },
    Line {
        by: BROKER,
        target: "POST /books/7/pledges/1/repay",
        body: "{\"pence\":100,\"seq\":2}",
        reply: FULL,
    },
    Line {
        by: BEARER_1,
        target: "POST /books/7/held/repay",
        body: "{\"pence\":100,\"seq\":2}",
        reply: FULL,
    },
    Line {
        by: BROKER,
        target: "POST /books/7/pledges/1/declare",
        body: "{\"paper\":\"sworn\"}",
        reply: FULL,
    },
    Line {
        by: BEARER_2,
        target: "POST /books/7/held/ask",
        body: "{\"day\":\"2024-03-04\",\"window\":3}",
        reply: FULL,
    },
    Line {
        by: IMPORT,
        target: "POST /books/8/import",
        body: ONE_RING,
        reply: FULL,
    },
];

/// Requests that add no row: repeats, a booking that replaces one, and views.
const OTHERS: [Line; 19] = [
    BOOK,
    TERMS,
    RING,
    DRAWING,
    REPAYMENT,
    Line {
        by: BEARER_1,
        target: "POST /books/7/held/repay",
        body: "{\"pence\":100,\"seq\":1}",
        reply: "{\"day\":\"2024-01-31\",\"pence\":100,\"seq\":1,\"sort\":\"repay\"}",
    },
    Line {
        by: IMPORT,
        target: "POST /books/8/import",
        body: EMPTY_BOOK,
        reply: "{\"imported\":0}",
    },
    Line {
        by: IMPORT,
        target: "POST /books/8/import",
        body: ONE_RING,
        reply: "{\"imported\":0}",
    },
    Line {
        by: BEARER_1,
        target: "POST /books/7/held/ask",
        body: "{\"day\":\"2024-03-05\",\"window\":4}",
        reply: "{\"booking\":\"asked\",\"day\":\"2024-03-05\",\"window\":4}",
    },
    Line {
        by: BROKER,
        target: "POST /books/7/pledges/1/decide",
        body: "{\"yes\":true}",
        reply: "{\"booking\":\"confirmed\",\"day\":\"2024-03-05\",\"window\":4}",
    },
    Line {
        by: BROKER,
        target: "GET /books/7/days/2024-03-05",
        body: "",
        reply: "Day sheet 2024-03-05\nWindow 4 confirmed 1 of 1\nPledge 1\nAsked 0\nEnds 0\n",
    },
    Line {
        by: BEARER_1,
        target: "POST /books/7/held/cancel",
        body: "",
        reply: "{\"booking\":\"cancelled\",\"day\":\"2024-03-05\",\"window\":4}",
    },
    Line {
        by: BROKER,
        target: "POST /books/7/pledges/1/hold",
        body: "",
        reply: "{\"held\":true}",
    },
    Line {
        by: BROKER,
        target: "POST /books/7/pledges/1/release",
        body: "",
        reply: "{\"held\":false}",
    },
    Line {
        by: BROKER,
        target: "POST /books/7/pledges/1/extend",
        body: "{\"until\":\"2024-09-30\"}",
        reply: "{\"ends\":\"2024-09-30\"}",
    },
    Line {
        by: BEARER_1,
        target: "GET /books/7/held",
        body: "",
        reply: "Pledge 1\nArticle Gold ring\nKind fixed 100.00\nTaken 2024-01-31\nEnds 2024-09-30\nExtended 2024-01-31 to 2024-09-30\nStatus inside\n\
            Principal 99.00\nCharges 0.00\nOwing 99.00\nHeld no\nBooking 2024-03-05 4 cancelled\nEntry 1 2024-01-31 repay 1.00\n",
    },
    Line {
        by: BROKER,
        target: "GET /books/7/pledges/3",
        body: "",
        reply: "Pledge 3\nArticle Gold ring\nKind fixed 100.00\nTaken 2024-01-31\nEnds 2024-07-31\nStatus inside\nPrincipal 100.00\nCharges 0.00\n\
            Owing 100.00\nHeld no\nBooking none\n",
    },
    Line {
        by: BROKER,
        target: "GET /books/8/export",
        body: "",
        reply: EMPTY_BOOK,
    },
    Line {
        by: BEARER_2,
        target: "POST /books/7/held/redeem",
        body: "{\"paid\":300}",
        reply: "{\"paid\":300,\"redeemed\":\"2024-01-31\"}",
    },
];

/// A sale, which is possible only after the end of the period.
const LATER: [Line; 1] = [Line {
    by: BROKER,
    target: "POST /books/7/pledges/3/sell",
    body: "{\"net\":9000}",
    reply: "{\"net\":9000,\"shortfall\":1000,\"surplus\":0}",
}];

/// Returns the bytes of a request.
fn request_of(alloc: Global, line: &Line) -> Result<String, Fail> {
    let (target, by, body) = (line.target, line.by, line.body);
    let length = body.len();
    Ok(format!(in alloc; "{target} HTTP/1.1\r\n{by}\r\nContent-Length: {length}\r\n\r\n{body}")?)
}

/// Sends the request of each line on a day, with its place from 0 as the word, and checks the reply.
fn plays(
    rt: &impl Abort,
    service: &mut Service<ListKeep>,
    alloc: Global,
    day: &str,
    lines: &[Line],
    status: &[u8],
) -> Result<(), Fail> {
    let mut word = 0u128;
    for line in lines {
        let request = request_of(alloc, line)?;
        let answer = service.answer_one(&stamp_on(rt, day, word), request.as_bytes());
        let (said, target) = (bytes_of(&answer), line.target);
        let is_told = said.starts_with(status) && said.ends_with(line.reply.as_bytes());
        assert!(rt; is_told, "line {word} of {day}, {target}");
        word = word.saturating_add(1);
    }
    Ok(())
}

/// Fills a service that has room for twelve rows, and then sends it all other requests.
fn fills_up(rt: &impl Abort, service: &mut Service<ListKeep>, alloc: Global) -> Result<(), Fail> {
    let (first, later) = ("2024-01-31", "2024-08-01");
    for (day, lines, status) in [
        (first, FILLING.as_slice(), DONE),
        (first, ADDING.as_slice(), REFUSED),
        (first, OTHERS.as_slice(), DONE),
        (later, LATER.as_slice(), DONE),
    ] {
        plays(rt, service, alloc, day, lines, status)?;
    }
    Ok(())
}

#[test]
fn what_adds_a_row_is_refused_and_all_else_is_answered(rt: HostRuntime) -> Result<(), Fail> {
    fills_up(&rt, &mut service_of(&rt, rt.alloc(), 12), rt.alloc())
}
