//! A law on the two versions of certificates. The function does nothing: its contract is the law.

ghost use Rattle.cert_check.specs.Causes.{SameVerdict};

/// A certificate, of version 1 say, and the one of version 2 that names its causes get the same verdict, with the same bound and number of
/// open boxes.
pub fn both_versions_get_the_same_verdict()
    ensures { SameVerdict }
{}
