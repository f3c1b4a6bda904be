//! What holds of every account.

ghost use Rattle.locked_spool.specs.Accounts.{AccountsAreOutlines};

/// Whatever legal history of octets happened to a spool, the account that tells each page of it by its length and its digest
/// is legal.
pub fn accounts_are_outlines()
    ensures { AccountsAreOutlines }
{}
