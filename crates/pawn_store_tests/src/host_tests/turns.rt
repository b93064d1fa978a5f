//! Requests of one day, each with the reply that it must get.

/// A request with the word of its stamp, and its reply.
#[derive(Clone, Copy)]
pub struct Turn {
    pub word: u128,
    pub request: &'static str,
    pub reply: &'static str,
}

/// The day of all turns.
pub const DAY: &str = "2024-01-31";

/// A ring is pawned and shown to the bearer of its receipt, and the receipt is declared lost. The bearer asks for a
/// visit, and redeems the ring, which cancels the booking. Another book is filled by an import.
pub const TURNS: [Turn; 9] = [
    Turn {
        word: 0,
        request: "POST /books/7 HTTP/1.1\r\nPledge-Key: 11111111-1111-1111-1111-111111111111\r\nContent-Length: 80\r\n\r\n\
            {\"capacity\":1,\"key\":\"22222222-2222-2222-2222-222222222222\",\"name\":\"High Street\"}",
        reply: "HTTP/1.1 200 OK\r\nContent-Length: 10\r\nContent-Type: application/json\r\n\r\n{\"book\":7}",
    },
    Turn {
        word: 0,
        request: "POST /books/7/terms HTTP/1.1\r\nPledge-Key: 22222222-2222-2222-2222-222222222222\r\nContent-Length: 53\r\n\r\n\
            {\"keep_after\":0,\"keep_before\":0,\"rate\":0,\"version\":1}",
        reply: "HTTP/1.1 200 OK\r\nContent-Length: 13\r\nContent-Type: application/json\r\n\r\n{\"version\":1}",
    },
    Turn {
        word: 1,
        request: "POST /books/7/pledges HTTP/1.1\r\nPledge-Key: 22222222-2222-2222-2222-222222222222\r\nContent-Length: 81\r\n\r\n\
            {\"article\":\"Gold ring\",\"five_days\":false,\"kind\":\"fixed\",\"pence\":10000,\"ref\":\"A1\"}",
        reply: "HTTP/1.1 200 OK\r\nContent-Length: 63\r\nContent-Type: application/json\r\n\r\n\
            {\"number\":1,\"receipt\":\"1-00000000-0000-0000-0000-000000000001\"}",
    },
    Turn {
        word: 0,
        request: "GET /books/7/held HTTP/1.1\r\nPledge-Receipt: 1-00000000-0000-0000-0000-000000000001\r\nContent-Length: 0\r\n\r\n",
        reply: "HTTP/1.1 200 OK\r\nContent-Length: 156\r\nContent-Type: text/plain; charset=utf-8\r\n\r\nPledge 1\nArticle Gold ring\nKind fixed 100.00\n\
            Taken 2024-01-31\nEnds 2024-07-31\nStatus inside\nPrincipal 100.00\nCharges 0.00\nOwing 100.00\nHeld no\nBooking none\n",
    },
    Turn {
        word: 2,
        request: "POST /books/7/pledges/1/declare HTTP/1.1\r\nPledge-Key: 22222222-2222-2222-2222-222222222222\r\nContent-Length: 17\r\n\r\n\
            {\"paper\":\"sworn\"}",
        reply: "HTTP/1.1 200 OK\r\nContent-Length: 52\r\nContent-Type: application/json\r\n\r\n{\"receipt\":\"1-00000000-0000-0000-0000-000000000002\"}",
    },
    Turn {
        word: 0,
        request: "POST /books/7/held/ask HTTP/1.1\r\nPledge-Receipt: 1-00000000-0000-0000-0000-000000000002\r\nContent-Length: 31\r\n\r\n\
            {\"day\":\"2024-02-10\",\"window\":3}",
        reply: "HTTP/1.1 200 OK\r\nContent-Length: 49\r\nContent-Type: application/json\r\n\r\n{\"booking\":\"asked\",\"day\":\"2024-02-10\",\"window\":3}",
    },
    Turn {
        word: 0,
        request: "POST /books/7/held/redeem HTTP/1.1\r\nPledge-Receipt: 1-00000000-0000-0000-0000-000000000002\r\nContent-Length: 14\r\n\r\n{\"paid\":10000}",
        reply: "HTTP/1.1 200 OK\r\nContent-Length: 38\r\nContent-Type: application/json\r\n\r\n{\"paid\":10000,\"redeemed\":\"2024-01-31\"}",
    },
    Turn {
        word: 0,
        request: "POST /books/8 HTTP/1.1\r\nPledge-Key: 11111111-1111-1111-1111-111111111111\r\nContent-Length: 80\r\n\r\n\
            {\"capacity\":1,\"key\":\"22222222-2222-2222-2222-222222222222\",\"name\":\"High Street\"}",
        reply: "HTTP/1.1 200 OK\r\nContent-Length: 10\r\nContent-Type: application/json\r\n\r\n{\"book\":8}",
    },
    Turn {
        word: 0,
        request: book_text!(
            "B,2,1,2,,,,,,,,,,,\nT,1,0,0,0,,,,,,,,,,\n\
            P,1,A1,Gold ring,fixed,10000,2024-01-31,,no,1,no,2024-02-01,open,,\nS,1,1,2024-01-31,opening,00000000-0000-0000-0000-000000000003,,,,,,,,,\n\
            S,1,2,2024-02-01,sworn,00000000-0000-0000-0000-000000000005,,,,,,,,,\nK,1,2024-02-10,3,asked,,,,,,,,,,\n\
            P,2,A2,Clock,fixed,10000,2024-01-31,,no,1,no,2024-08-01,sold,2024-08-01,9000\n\
            S,2,1,2024-01-31,opening,00000000-0000-0000-0000-000000000004,,,,,,,,,\n",
            after "POST /books/8/import HTTP/1.1\r\nPledge-Key: 22222222-2222-2222-2222-222222222222\r\nImport-Key: 44444444-0000-0000-0000-000000000000\r\n\
            Content-Length: 478\r\n\r\n"
        ),
        reply: "HTTP/1.1 200 OK\r\nContent-Length: 14\r\nContent-Type: application/json\r\n\r\n{\"imported\":2}",
    },
];

/// The request that exports book 7.
pub const EXPORT: &[u8] =
    b"GET /books/7/export HTTP/1.1\r\nPledge-Key: 22222222-2222-2222-2222-222222222222\r\nContent-Length: 0\r\n\r\n";

/// The request that exports book 8.
pub const EXPORT_OTHER: &[u8] =
    b"GET /books/8/export HTTP/1.1\r\nPledge-Key: 22222222-2222-2222-2222-222222222222\r\nContent-Length: 0\r\n\r\n";
