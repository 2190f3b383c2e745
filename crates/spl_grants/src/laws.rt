//! The law of this crate, as the contract of a function that does nothing.
ghost use Rattle.spl_grants.specs.Laws.{GrantedPiecesGrant};

/// Room by one instruction, or by its number on top.
pub fn granted_pieces_grant()
    ensures { GrantedPiecesGrant }
{}
