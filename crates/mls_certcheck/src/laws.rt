//! The laws of certificates, the contracts of functions.
ghost use Rattle.mls_certcheck.specs.Laws.{FlatCertificatesLift, RulesMakeSecure};
ghost use Rattle.mls_certcheck.specs.Sharp.{CeilingsTellNothing, RulesMakeSharp};

/// A transaction that obeys a certificate, under a policy whose labels are distinct, is secure.
pub fn rules_make_secure()
    ensures { RulesMakeSecure }
{}

/// And it tells a level nothing but by values that are released to it and made of what it may not read: so nothing
/// where the level dominates all that the transaction reads.
pub fn rules_make_sharp()
    ensures sharp { RulesMakeSharp }
    ensures ceiling { CeilingsTellNothing }
{}

/// What obeys a certificate with one label for each variable obeys the one with these labels after each statement.
pub fn flat_certificates_lift()
    ensures { FlatCertificatesLift }
{}
