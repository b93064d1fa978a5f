//! The detail that some replies to refusals and faults have.

/// What the reply to a refusal or a fault states besides its code and name.
#[derive(Clone, Copy)]
pub enum Detail {
    /// The sum owing, in pence.
    Total(u64),
    /// The row of a text; the first is row 1.
    Row(u64),
}
