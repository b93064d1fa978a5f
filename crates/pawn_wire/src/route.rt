//! The targets of the service, and what is asked at each.

/// What is asked by all targets of one form.
#[derive(Clone, Copy)]
pub enum Endpoint {
    /// Make a book.
    Create,
    /// Put terms into a book.
    PutTerms,
    /// Take a pledge into a book.
    TakePledge,
    /// Show a pledge of a book.
    Show,
    /// Apply a broker's command to a pledge of a book.
    OnPledge(BrokerAction),
    /// Show the sheet of a day.
    ShowDay,
    /// Export the rows of a book as text.
    Export,
    /// Import the rows of a text into a book.
    Import,
    /// Show the pledges of receipts.
    Present,
    /// Apply a bearer's command to the pledge of a receipt.
    OnReceipt(BearerAction),
}

/// The commands that a broker may send for a pledge.
#[derive(Clone, Copy)]
pub enum BrokerAction {
    /// Enter a drawing.
    Draw,
    /// Enter a repayment.
    Repay,
    /// Put the pledge on hold.
    Hold,
    /// End the hold.
    Release,
    /// Tender a declaration that the receipt was lost.
    Declare,
    /// Confirm or refuse a booking.
    Decide,
    /// Sell the article.
    Sell,
    /// Extend the period.
    Extend,
}

/// The commands that a bearer may send for the pledge of a receipt.
#[derive(Clone, Copy)]
pub enum BearerAction {
    /// Enter a repayment.
    Repay,
    /// Ask for a booking.
    Ask,
    /// Cancel a booking.
    Cancel,
    /// Redeem the pledge.
    Redeem,
}

/// The targets, each with its endpoint. A name in braces is a number or a day.
pub(crate) const ROUTES: [(&str, Endpoint); 20] = [
    ("/books/{b}", Endpoint::Create),
    ("/books/{b}/terms", Endpoint::PutTerms),
    ("/books/{b}/pledges", Endpoint::TakePledge),
    ("/books/{b}/pledges/{n}", Endpoint::Show),
    (
        "/books/{b}/pledges/{n}/draw",
        Endpoint::OnPledge(BrokerAction::Draw),
    ),
    (
        "/books/{b}/pledges/{n}/repay",
        Endpoint::OnPledge(BrokerAction::Repay),
    ),
    (
        "/books/{b}/pledges/{n}/hold",
        Endpoint::OnPledge(BrokerAction::Hold),
    ),
    (
        "/books/{b}/pledges/{n}/release",
        Endpoint::OnPledge(BrokerAction::Release),
    ),
    (
        "/books/{b}/pledges/{n}/declare",
        Endpoint::OnPledge(BrokerAction::Declare),
    ),
    (
        "/books/{b}/pledges/{n}/decide",
        Endpoint::OnPledge(BrokerAction::Decide),
    ),
    (
        "/books/{b}/pledges/{n}/sell",
        Endpoint::OnPledge(BrokerAction::Sell),
    ),
    (
        "/books/{b}/pledges/{n}/extend",
        Endpoint::OnPledge(BrokerAction::Extend),
    ),
    ("/books/{b}/days/{d}", Endpoint::ShowDay),
    ("/books/{b}/export", Endpoint::Export),
    ("/books/{b}/import", Endpoint::Import),
    ("/books/{b}/held", Endpoint::Present),
    (
        "/books/{b}/held/repay",
        Endpoint::OnReceipt(BearerAction::Repay),
    ),
    (
        "/books/{b}/held/ask",
        Endpoint::OnReceipt(BearerAction::Ask),
    ),
    (
        "/books/{b}/held/cancel",
        Endpoint::OnReceipt(BearerAction::Cancel),
    ),
    (
        "/books/{b}/held/redeem",
        Endpoint::OnReceipt(BearerAction::Redeem),
    ),
];
