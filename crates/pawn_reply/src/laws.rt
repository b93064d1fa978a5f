//! Laws of the bodies of replies.
ghost use Rattle.pawn_reply.specs.Laws.{BodiesAreJson};

/// The bodies of replies are compact JSON, with their members in the order of their names.
pub fn bodies_are_json()
    ensures law { BodiesAreJson }
{}
