//! What a check answers where all is right. The functions do nothing: their contracts are the laws.

ghost use Rattle.run_checks.specs.RightTexts.{RightBehindIsAccepted, RightIsAccepted, RightPasses};

/// A certificate that is right for a box and a loss is accepted by a check, or its floor is not shown: never where that is 0.
pub fn right_certificates_pass()
    ensures { RightPasses }
{}

/// `verify` of texts that say a lawful plan, or of none, and a certificate that is right for its loss accepts them with the certificate's
/// bound and number of open boxes, or does not show its floor: never where that is 0.
pub fn right_texts_are_accepted()
    ensures { RightIsAccepted }
{}

/// `verify --frozen=K` of texts that say a lawful plan with more than K plates and a certificate that is right for the instance that is left
/// behind these and for what the plan loses there, accepts them with the certificate's number of open boxes, and its bound with what these
/// plates lose added, or does not show its floor.
pub fn right_texts_behind_first_plates_are_accepted()
    ensures { RightBehindIsAccepted }
{}
